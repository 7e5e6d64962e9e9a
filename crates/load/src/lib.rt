// Load as a resource: what a van has picked up, and the most that it carries at once.

#![tactic(auto)]

ghost use Rattle.std.specs.Prelude.{◌≡◌, ◌≤◌, [], ◌∷◌};
ghost use Rattle.std.proofs.Common.{lit≤};
ghost use Rattle.resource.specs.Making.{figure_answer, figure_made};
ghost use Rattle.load.specs.Carrying.{greatest_capacity, carrying, never_overloaded};
ghost use Rattle.load.specs.Room.{carrying_keeps};
ghost use Rattle.load.specs.Laws.{carrying_lawful};

use records::limits::MOST_CRATES;
use records::step::Step;
use resource::figures::{deliver, pickup};
use resource::questions::ask_figure;
use resource::recursion::Recursion;
use resource::refusal::Refusal;
use resource::rows::BROKEN;

// The greatest capacity of a van.
pub const GREATEST_CAPACITY: u32 = MOST_CRATES;

// A row has two words: what is picked up, and the peak of what is carried.
const WIDTH: usize = 2;

// What is picked up and the peak of what is carried, under a capacity.
#[derive(Clone, Copy, PartialEq, Eq, Debug)]
pub struct Load {
    // the most that the van carries
    capacity: u32,
    ghost bounded: { capacity ≤ greatest_capacity },
}

impl Load {
    pub fn new(capacity: u32) -> Result<Load, Refusal>
        ensures { figure_made (λ l. l.capacity) result ≡ figure_answer greatest_capacity capacity }
    {
        let capacity = ask_figure(GREATEST_CAPACITY, capacity)?;
        Ok(Load { capacity })
    }
}

impl Recursion for Load {
    type Row = [u32; WIDTH];

    ghost begins = { λ l. 0 ∷ (0 ∷ []) };

    ghost extension = { λ l. carrying l.capacity };

    ghost keeps = { λ l. never_overloaded l.capacity };

    ghost narrow = { λ l. lit≤ tt };

    ghost lawful = { λ l. carrying_lawful l.capacity l.bounded };

    ghost accepts_what_keeps = { λ l. carrying_keeps l.capacity l.bounded };

    fn first(&self) -> [u32; WIDTH] {
        [0; WIDTH]
    }

    // What the van has picked up when it leaves the step's stop, and its peak; the broken row where that is too much.
    fn next(&self, step: &Step, marks: u8, [picked, peak]: [u32; WIDTH]) -> [u32; WIDTH] {
        let new_picked = picked as u64 + pickup(step, marks);
        let new_peak = new_picked.max(peak as u64 + deliver(step, marks));
        // a word above the ceiling is above every capacity, so it needs no test of its own
        if new_peak > self.capacity as u64 {
            [BROKEN; WIDTH]
        } else {
            [new_picked as u32, new_peak as u32]
        }
    }
}
