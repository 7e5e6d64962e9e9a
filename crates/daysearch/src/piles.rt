// What piles of layers say of the first day of a case. Each call has the three parameters of the first day, since a trial
// takes it as a function.
use crate::cases::{Budget, Case};
use duty::Duty;
use layer::Layer;
use load::Load;
use pair::Pair;
use resource::interface::Resource;
use resource::refusal::Refusal;
use stranger::{FREE, Tally};
use time::Time;

fn layer_over<B: Resource + Drop>(case: &Case, at: usize, below: B) -> Result<Layer<B>, Refusal> {
    let unmarking = Budget {
        class: FREE,
        most: 0,
    };
    let layer = case.layers.get(at).unwrap_or(&unmarking);
    Layer::new(layer.class, layer.most, below)
}

fn ask_one<B: Resource + Drop>(
    case: &Case,
    below: B,
    list: &mut [u8],
    work: &mut [u32],
) -> Result<bool, Refusal> {
    let pile = layer_over(case, 0, below)?;
    pile.first_day(case.steps.as_slice(), list, work)
}

fn ask_two<B: Resource + Drop>(
    case: &Case,
    below: B,
    list: &mut [u8],
    work: &mut [u32],
) -> Result<bool, Refusal> {
    ask_one(case, layer_over(case, 1, below)?, list, work)
}

fn ask_three<B: Resource + Drop>(
    case: &Case,
    below: B,
    list: &mut [u8],
    work: &mut [u32],
) -> Result<bool, Refusal> {
    ask_two(case, layer_over(case, 2, below)?, list, work)
}

pub fn ask_one_over_time(case: &Case, list: &mut [u8], work: &mut [u32]) -> Result<bool, Refusal> {
    ask_one(case, Time::new(case.figures.beginning)?, list, work)
}

pub fn ask_two_over_time(case: &Case, list: &mut [u8], work: &mut [u32]) -> Result<bool, Refusal> {
    ask_two(case, Time::new(case.figures.beginning)?, list, work)
}

pub fn ask_product(case: &Case, list: &mut [u8], work: &mut [u32]) -> Result<bool, Refusal> {
    let first = Time::new(case.figures.beginning)?;
    let load = Load::new(case.figures.capacity)?;
    let duty = Duty::new(case.figures.drive)?;
    let second = Pair {
        first: load,
        second: duty,
    };
    ask_three(case, Pair { first, second }, list, work)
}

pub fn ask_tally(case: &Case, list: &mut [u8], work: &mut [u32]) -> Result<bool, Refusal> {
    let tally = Tally::new(case.figures.stops, case.figures.late)?;
    ask_three(case, tally, list, work)
}
