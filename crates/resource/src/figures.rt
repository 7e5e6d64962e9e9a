// The figures of a step under its marks. They are computed in 64 bits and fit 33, so that no sum of a word and some
// figures wraps; each contract says so, since a type for it would be taken apart again at every sum.
ghost use Rattle.std.specs.Prelude.{◌≡◌, ◌^◌, ◌<◌};
ghost use Rattle.resource.specs.Figures.{marked, travel as travelled, serve as served, deliver as delivered, pickup as collected};

use records::step::Step;

// The classes of marks: one bit each. They are numbers and no enum, since by the rules marks are the caller's bytes, and
// five of the bits are free.
pub const TRAVEL: u8 = 1;

pub const SERVE: u8 = 2;

pub const DEMAND: u8 = 4;

// A figure, to which a mark of its class adds the deviation. The four below say which figure and which class.
fn under_marks(class: u8, marks: u8, figure: u32, deviation: u32) -> u64
    ensures figure { result ≡ marked class marks figure deviation }
    ensures small { result < 2 ^ 33 }
{
    if marks & class == 0 {
        figure as u64
    } else {
        figure as u64 + deviation as u64
    }
}

// The time on the way to the stop.
pub fn travel(step: &Step, marks: u8) -> u64
    ensures figure { result ≡ travelled step.now marks }
    ensures small { result < 2 ^ 33 }
{
    under_marks(TRAVEL, marks, step.leg.travel, step.leg.travel_deviation)
}

// The time that the stop takes.
pub fn serve(step: &Step, marks: u8) -> u64
    ensures figure { result ≡ served step.now marks }
    ensures small { result < 2 ^ 33 }
{
    under_marks(SERVE, marks, step.stop.serve, step.stop.serve_deviation)
}

// What is delivered at the stop.
pub fn deliver(step: &Step, marks: u8) -> u64
    ensures figure { result ≡ delivered step.now marks }
    ensures small { result < 2 ^ 33 }
{
    under_marks(
        DEMAND,
        marks,
        step.stop.deliver,
        step.stop.deliver_deviation,
    )
}

// What is picked up at the stop.
pub fn pickup(step: &Step, marks: u8) -> u64
    ensures figure { result ≡ collected step.now marks }
    ensures small { result < 2 ^ 33 }
{
    under_marks(DEMAND, marks, step.stop.pickup, step.stop.pickup_deviation)
}
