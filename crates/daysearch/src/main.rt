// Compares the first days that piles find with a plain enumeration of all scenarios, on small random routes.

#![tactic(auto)]

use crate::cases::{Case, Random, make_case};
use crate::piles::{ask_one_over_time, ask_product, ask_tally, ask_two_over_time};
use crate::rules::{few_enough, has_room, in_time, rests_in_time};
use crate::scenarios::{count, search};
use resource::figures::{DEMAND, SERVE, TRAVEL};
use resource::refusal::Refusal;
use std::alloc::{AllocError, Global};
use stranger::FREE;

mod cases;
mod piles;
mod rules;
mod scenarios;

// How many routes are tried under each pile.
const ROUTES: u32 = 200;

// A work slice that is long enough for every pile here.
const WORK_WORDS: usize = 1024;

// A pile under which routes are tried: the classes of its layers, the outermost first, how it is asked for the first
// day, and whether the resource under it accepts a route with marks, said without rows.
#[derive(Clone, Copy)]
struct Trial<'a, Ask, Accepts> {
    name: &'a str,
    classes: &'a [u8],
    ask: Ask,
    accepts: Accepts,
}

// What came of the routes under a pile: how many were refused, how many of those with a first day that marks a step, all
// marks of first days summed up, and how many first days differed from the enumeration.
#[derive(Clone, Copy, PartialEq, Eq, Debug, Default)]
struct Score {
    refused: u32,
    marked: u32,
    marks: u32,
    differences: u32,
}

// Each mark times the number of its step, to tell days from one another.
fn sum_of_marks(case: &Case, list: &[u8]) -> u32 {
    let mut sum = 0u32;
    for (i, mark) in list.iter().take(case.steps.len()).enumerate() {
        let weight = count(i).saturating_add(1);
        sum = sum.saturating_add(weight.saturating_mul(u32::from(*mark)));
    }
    sum
}

// Is the first day, and the list that it left, what the enumeration says?
fn agrees<Accepts: Fn(&Case, &[u8]) -> bool>(
    heap: Global,
    case: &Case,
    accepts: &Accepts,
    answer: Result<bool, Refusal>,
    list: &[u8],
) -> Result<bool, AllocError>
    requires { Accepts.IsAlwaysCallable accepts.now }
{
    let found = search(heap, case, accepts)?;
    match (answer, found) {
        (Ok(true), Some(day)) => Ok(list == day.as_slice()),
        (Ok(false), None) => Ok(list == case.given.as_slice()),
        _ => Ok(false),
    }
}

impl<Ask, Accepts> Trial<'_, Ask, Accepts>
where
    Ask: Fn(&Case, &mut [u8], &mut [u32]) -> Result<bool, Refusal>,
    Accepts: Fn(&Case, &[u8]) -> bool,
{
    fn try_route(
        &self,
        heap: Global,
        case: &Case,
        work: &mut [u32],
        score: &mut Score,
    ) -> Result<(), AllocError>
        requires ask { Ask.IsAlwaysCallable self.now.ask }
        requires accepts { Accepts.IsAlwaysCallable self.now.accepts }
    {
        let mut list = Vec::from_slice(heap, case.given.as_slice())?;
        let answer = (self.ask)(case, list.as_mut_slice(), work);
        if let Ok(true) = answer {
            score.refused = score.refused.saturating_add(1);
            if list.as_slice() != case.given.as_slice() {
                score.marked = score.marked.saturating_add(1);
            }
            score.marks = score
                .marks
                .saturating_add(sum_of_marks(case, list.as_slice()));
        }
        if !agrees(heap, case, &self.accepts, answer, list.as_slice())? {
            score.differences = score.differences.saturating_add(1);
        }
        Ok(())
    }

    fn try_routes(&self, rt: &HostRuntime, random: &mut Random) -> anyhow::Result<()>
        requires ask { Ask.IsAlwaysCallable self.now.ask }
        requires accepts { Accepts.IsAlwaysCallable self.now.accepts }
    {
        let heap = rt.alloc();
        let mut work = vec![in heap; 0u32; WORK_WORDS]?;
        let mut score = Score::default();
        for _ in 0..ROUTES {
            let case = make_case(heap, random, self.classes)?;
            self.try_route(heap, &case, work.as_mut_slice(), &mut score)?;
        }
        let name = self.name;
        let refused = score.refused;
        let marked = score.marked;
        let marks = score.marks;
        let differences = score.differences;
        println!(rt;
            "{name}: {ROUTES} routes, {refused} refused, {marked} by a layer's mark, sum of marks {marks}, {differences} differences"
        )?;
        Ok(())
    }
}

fn accepted_by_time(case: &Case, marks: &[u8]) -> bool {
    in_time(case.figures.beginning, case.steps.as_slice(), marks)
}

fn accepted_by_product(case: &Case, marks: &[u8]) -> bool {
    let steps = case.steps.as_slice();
    accepted_by_time(case, marks)
        && has_room(case.figures.capacity, steps, marks)
        && rests_in_time(case.figures.drive, steps, marks)
}

fn accepted_by_tally(case: &Case, marks: &[u8]) -> bool {
    let figures = case.figures;
    few_enough(figures.stops, figures.late, case.steps.as_slice(), marks)
}

fn try_piles_over_time(rt: &HostRuntime, random: &mut Random) -> anyhow::Result<()> {
    let once = Trial {
        name: "travel over time",
        classes: &[TRAVEL],
        ask: ask_one_over_time,
        accepts: accepted_by_time,
    };
    once.try_routes(rt, random)?;
    let mixed = Trial {
        name: "serve over travel over time",
        classes: &[SERVE, TRAVEL],
        ask: ask_two_over_time,
        accepts: accepted_by_time,
    };
    mixed.try_routes(rt, random)?;
    let twice = Trial {
        name: "travel twice over time",
        classes: &[TRAVEL, TRAVEL],
        ask: ask_two_over_time,
        accepts: accepted_by_time,
    };
    twice.try_routes(rt, random)
}

fn main(rt: HostRuntime) -> anyhow::Result<()> {
    let mut random = Random { state: 1 };
    try_piles_over_time(&rt, &mut random)?;
    let product = Trial {
        name: "the product",
        classes: &[TRAVEL, SERVE, DEMAND],
        ask: ask_product,
        accepts: accepted_by_product,
    };
    product.try_routes(&rt, &mut random)?;
    let tally = Trial {
        name: "a free class over travel twice over a tally",
        classes: &[FREE, TRAVEL, TRAVEL],
        ask: ask_tally,
        accepts: accepted_by_tally,
    };
    tally.try_routes(&rt, &mut random)
}
