// Time as a resource: the hour at which a van leaves each stop, under the stops' time windows.

#![tactic(auto)]

ghost use Rattle.std.specs.Prelude.{◌≡◌, ◌≤◌, [], ◌∷◌};
ghost use Rattle.std.proofs.Common.{lit≤};
ghost use Rattle.resource.specs.Making.{figure_answer, figure_made};
ghost use Rattle.time.specs.Hours.{latest_beginning, hours, on_time};
ghost use Rattle.time.specs.Laws.{hours_keep, hours_lawful};

use records::limits::MOST_SECONDS;
use records::step::Step;
use resource::figures::{serve, travel};
use resource::questions::ask_figure;
use resource::recursion::Recursion;
use resource::refusal::Refusal;
use resource::rows::{BROKEN, CEILING};

// The latest hour at which a route may begin.
pub const LATEST_BEGINNING: u32 = MOST_SECONDS;

// A row has one word: the hour of leaving.
const WIDTH: usize = 1;

// The hour of leaving, under time windows.
#[derive(Clone, Copy, PartialEq, Eq, Debug)]
pub struct Time {
    // the hour of leaving the depot
    beginning: u32,
    ghost early: { beginning ≤ latest_beginning },
}

impl Time {
    pub fn new(beginning: u32) -> Result<Time, Refusal>
        ensures { figure_made (λ t. t.beginning) result ≡ figure_answer latest_beginning beginning }
    {
        let beginning = ask_figure(LATEST_BEGINNING, beginning)?;
        Ok(Time { beginning })
    }
}

impl Recursion for Time {
    type Row = [u32; WIDTH];

    ghost begins = { λ t. t.beginning ∷ [] };

    ghost extension = { λ t. hours };

    ghost keeps = { λ t. on_time t.beginning };

    ghost narrow = { λ t. lit≤ tt };

    ghost lawful = { λ t. hours_lawful t.beginning t.early };

    ghost accepts_what_keeps = { λ t. hours_keep t.beginning t.early };

    fn first(&self) -> [u32; WIDTH] {
        [self.beginning]
    }

    // The hour of leaving the step's stop; the word of a broken row where the van is late.
    fn next(&self, step: &Step, marks: u8, [hour]: [u32; WIDTH]) -> [u32; WIDTH] {
        let arrival = hour as u64 + travel(step, marks);
        let leaving = arrival.max(step.stop.opens as u64) + serve(step, marks);
        // an hour above the ceiling stays above it, so it needs no test of its own
        if arrival > step.stop.closes as u64 || leaving > CEILING as u64 {
            [BROKEN]
        } else {
            [leaving as u32]
        }
    }
}
