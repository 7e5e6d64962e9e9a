// A resource of a crate's own: how many stops a van has made and how many legs were late, each under a limit.

#![tactic(auto)]

ghost use Rattle.std.specs.Prelude.{◌≡◌, ◌≤◌, [], ◌∷◌};
ghost use Rattle.std.proofs.Common.{lit≤};
ghost use Rattle.resource.specs.Making.{figure_made};
ghost use Rattle.stranger.specs.Counting.{greatest_limit, limit_answer, counting, few_enough};
ghost use Rattle.stranger.specs.Laws.{counting_keeps, counting_lawful};

use records::step::Step;
use resource::figures::TRAVEL;
use resource::questions::ask_figure;
use resource::recursion::Recursion;
use resource::refusal::Refusal;
use resource::rows::BROKEN;

// The greatest limit of either number.
pub const GREATEST_LIMIT: u32 = 1_000;

// A class that changes no figure of a step: one of the five bits that have no name. A number and no enum, since by the
// rules marks are the caller's bytes.
pub const FREE: u8 = 8;

// The classes that make a leg late: bits of the caller's bytes, as all classes.
const LATE: u8 = TRAVEL | FREE;

// A row has two words: the number of stops, and that of late legs.
const WIDTH: usize = 2;

// The number of stops and of late legs so far, under their limits.
#[derive(Clone, Copy, PartialEq, Eq, Debug)]
pub struct Tally {
    most_stops: u32,
    most_late: u32,
    ghost few_stops: { most_stops ≤ greatest_limit },
    ghost few_late: { most_late ≤ greatest_limit },
}

impl Tally {
    pub fn new(most_stops: u32, most_late: u32) -> Result<Tally, Refusal>
        ensures stops { figure_made (λ t. t.most_stops) result ≡ limit_answer most_stops most_late most_stops }
        ensures late { figure_made (λ t. t.most_late) result ≡ limit_answer most_stops most_late most_late }
    {
        let most_stops = ask_figure(GREATEST_LIMIT, most_stops)?;
        let most_late = ask_figure(GREATEST_LIMIT, most_late)?;
        Ok(Tally {
            most_stops,
            most_late,
        })
    }
}

impl Recursion for Tally {
    type Row = [u32; WIDTH];

    ghost begins = { λ t. 0 ∷ (0 ∷ []) };

    ghost extension = { λ t. counting t.most_stops t.most_late };

    ghost keeps = { λ t. few_enough t.most_stops t.most_late };

    ghost narrow = { λ t. lit≤ tt };

    ghost lawful = { λ t. counting_lawful t.most_stops t.most_late t.few_stops t.few_late };

    ghost accepts_what_keeps = { λ t. counting_keeps t.most_stops t.most_late t.few_stops t.few_late };

    fn first(&self) -> [u32; WIDTH] {
        [0; WIDTH]
    }

    // The numbers after the step's stop; the broken row where one is above its limit.
    fn next(&self, step: &Step, marks: u8, [stops, late]: [u32; WIDTH]) -> [u32; WIDTH] {
        let new_stops = stops as u64 + 1;
        let new_late = late as u64 + u64::from(marks & LATE != 0);
        // a word above the ceiling is above every limit, so it needs no test of its own
        if new_stops > self.most_stops as u64 || new_late > self.most_late as u64 {
            [BROKEN; WIDTH]
        } else {
            [new_stops as u32, new_late as u32]
        }
    }
}
