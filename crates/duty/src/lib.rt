// Duty as a resource: the time that a van is driven without a rest.

#![tactic(auto)]

ghost use Rattle.std.specs.Prelude.{◌≡◌, ◌≤◌, [], ◌∷◌};
ghost use Rattle.std.proofs.Common.{lit≤};
ghost use Rattle.resource.specs.Making.{figure_answer, figure_made};
ghost use Rattle.duty.specs.Driving.{greatest_limit, driving, rests_in_time};
ghost use Rattle.duty.specs.Laws.{driving_keeps, driving_lawful};

use records::limits::MOST_SECONDS;
use records::step::Step;
use resource::figures::travel;
use resource::questions::ask_figure;
use resource::recursion::Recursion;
use resource::refusal::Refusal;
use resource::rows::BROKEN;

// The greatest limit of the driving time.
pub const GREATEST_LIMIT: u32 = MOST_SECONDS;

// A row has one word: the driving time since the last rest.
const WIDTH: usize = 1;

// The driving time since the last rest, under a limit.
#[derive(Clone, Copy, PartialEq, Eq, Debug)]
pub struct Duty {
    // the longest driving time without a rest
    limit: u32,
    ghost bounded: { limit ≤ greatest_limit },
}

impl Duty {
    pub fn new(limit: u32) -> Result<Duty, Refusal>
        ensures { figure_made (λ d. d.limit) result ≡ figure_answer greatest_limit limit }
    {
        let limit = ask_figure(GREATEST_LIMIT, limit)?;
        Ok(Duty { limit })
    }
}

impl Recursion for Duty {
    type Row = [u32; WIDTH];

    ghost begins = { λ d. 0 ∷ [] };

    ghost extension = { λ d. driving d.limit };

    ghost keeps = { λ d. rests_in_time d.limit };

    ghost narrow = { λ d. lit≤ tt };

    ghost lawful = { λ d. driving_lawful d.limit d.bounded };

    ghost accepts_what_keeps = { λ d. driving_keeps d.limit d.bounded };

    fn first(&self) -> [u32; WIDTH] {
        [0; WIDTH]
    }

    // The driving time after the step's stop; the word of a broken row where it was too long on the way there.
    fn next(&self, step: &Step, marks: u8, [before]: [u32; WIDTH]) -> [u32; WIDTH] {
        let driven = before as u64 + travel(step, marks);
        // a word above the ceiling is above every limit, so it needs no test of its own
        if driven > self.limit as u64 {
            [BROKEN]
        } else if step.stop.rest != 0 {
            [0]
        } else {
            [driven as u32]
        }
    }
}
