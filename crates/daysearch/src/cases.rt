// Small random routes, and the piles that they are tried under.
use records::step::Step;
use records::{Leg, Stop};
use resource::limits::MARK_BYTES;
use std::alloc::{AllocError, Global};

// A generator of figures: a linear congruence, of which the high bits are taken.
#[derive(Clone, Copy, PartialEq, Eq, Debug)]
pub struct Random {
    pub state: u32,
}

impl Random {
    pub fn below(&mut self, bound: u32) -> u32 {
        self.state = self
            .state
            .wrapping_mul(1_664_525)
            .wrapping_add(1_013_904_223);
        if bound == 0 {
            0
        } else {
            (self.state >> 16) % bound
        }
    }

    fn byte(&mut self) -> u8 {
        u8::try_from(self.below(256)).unwrap_or(0)
    }
}

#[derive(Clone, Copy, PartialEq, Eq, Debug)]
pub struct Budget {
    pub class: u8,
    pub most: u32,
}

// The figures of the resources.
#[derive(Clone, Copy, PartialEq, Eq, Debug)]
pub struct Figures {
    pub beginning: u32,
    pub capacity: u32,
    pub drive: u32,
    pub stops: u32,
    pub late: u32,
}

// A route, the marks that the list holds beforehand, and a pile, its layers the outermost first.
#[derive(Drop)]
pub struct Case {
    pub steps: Vec<Step>,
    pub given: Vec<u8>,
    pub layers: Vec<Budget>,
    pub figures: Figures,
}

fn make_step(random: &mut Random) -> Step {
    let travel = random.below(30).saturating_add(10);
    let travel_deviation = random.below(50);
    let leg = Leg {
        travel,
        travel_deviation,
    };
    let opens = random.below(80);
    let closes = random.below(160).saturating_add(80).saturating_add(opens);
    let serve = random.below(20);
    let serve_deviation = random.below(40);
    let deliver = random.below(12);
    let deliver_deviation = random.below(12);
    let pickup = random.below(12);
    let pickup_deviation = random.below(12);
    let rest = u32::from(random.below(3) == 0);
    let stop = Stop {
        opens,
        closes,
        serve,
        serve_deviation,
        deliver,
        deliver_deviation,
        pickup,
        pickup_deviation,
        rest,
    };
    Step { leg, stop }
}

// One to four steps.
fn make_steps(heap: Global, random: &mut Random) -> Result<Vec<Step>, AllocError> {
    let mut steps = Vec::new(heap);
    for _ in 0..random.below(4).saturating_add(1) {
        steps.push(make_step(random))?;
    }
    Ok(steps)
}

// A mark list that has marks on some of the steps, and after them bytes that no call may touch.
fn make_marks(heap: Global, random: &mut Random, steps: usize) -> Result<Vec<u8>, AllocError> {
    let mut marks = Vec::new(heap);
    for _ in 0..steps {
        let mark = if random.below(8) == 0 {
            random.byte()
        } else {
            0
        };
        marks.push(mark)?;
    }
    marks.resize(MARK_BYTES, 85)?;
    Ok(marks)
}

fn make_layers(
    heap: Global,
    random: &mut Random,
    classes: &[u8],
) -> Result<Vec<Budget>, AllocError> {
    let mut layers = Vec::new(heap);
    for class in classes {
        layers.push(Budget {
            class: *class,
            most: random.below(4),
        })?;
    }
    Ok(layers)
}

fn make_figures(random: &mut Random) -> Figures {
    let beginning = random.below(20);
    let capacity = random.below(40).saturating_add(30);
    let drive = random.below(120).saturating_add(70);
    let stops = random.below(3).saturating_add(3);
    let late = random.below(5);
    Figures {
        beginning,
        capacity,
        drive,
        stops,
        late,
    }
}

// A case for a pile whose layers have these classes, the outermost first.
pub fn make_case(heap: Global, random: &mut Random, classes: &[u8]) -> Result<Case, AllocError> {
    let steps = make_steps(heap, random)?;
    let given = make_marks(heap, random, steps.len())?;
    let layers = make_layers(heap, random, classes)?;
    let figures = make_figures(random);
    Ok(Case {
        steps,
        given,
        layers,
        figures,
    })
}
