// The product's pile, made from a day's head.

#![tactic(auto)]

ghost use Rattle.std.specs.Prelude.{◌≡◌, ℕ, length, take, is_some, Some, None, MatchResult};
ghost use Rattle.records.specs.declared.Head.{Head as DayHead};
ghost use Rattle.resource.specs.Answers.{day_answer, day_list};
ghost use Rattle.resource.specs.Scenarios.{first_day};
ghost use Rattle.pile.specs.Product.{refusing, PileOf, product_layers, product_width, keeps_all};
ghost use Rattle.pile.specs.Worked.{WorkedFigures};

use duty::Duty;
use layer::Layer;
use load::Load;
use pair::Pair;
use records::Head;
use records::step::Step;
use resource::figures::{DEMAND, SERVE, TRAVEL};
use resource::interface::Resource;
use resource::refusal::Refusal;
use time::Time;

// Travel outermost, then serve, then demand, over time beside load and duty.
pub type ProductPile = Layer<Layer<Layer<Pair<Time, Pair<Load, Duty>>>>>;

// The pile of a day: time begins as the depot opens, and capacity, drive and budgets are the day's.
pub fn product_pile(head: Head, opens: u32) -> Result<ProductPile, Refusal>
    ensures { MatchResult result (λ p. (refusing head opens ≡ None) × PileOf head opens p) (λ e. refusing head opens ≡ Some e) }
{
    let first = Time::new(opens)?;
    let load = Load::new(head.capacity)?;
    let duty = Duty::new(head.drive)?;
    let second = Pair {
        first: load,
        second: duty,
    };
    let below = Pair { first, second };
    let demand = Layer::new(DEMAND, head.demand_budget, below)?;
    let serve = Layer::new(SERVE, head.serve_budget, demand)?;
    let travel = Layer::new(TRAVEL, head.travel_budget, serve)?;
    Ok(travel)
}

// Whether there is a day, within the budgets, on which a van would arrive after closing, carry too much or be driven for
// too long without a rest. The marks of the first such day are added to those in the list.
pub fn product_first_day(
    pile: &ProductPile,
    steps: &[Step],
    marks: &mut [u8],
    work: &mut [u32],
) -> Result<bool, Refusal>
    ensures answer { (h : DayHead) (opens : ℕ) → PileOf h opens pile.now → result ≡ day_answer (product_width h) (length steps.now) (length marks.old) (length work.old) (is_some (first_day (keeps_all h opens) (product_layers h) steps.now (take (length steps.now) marks.old))) }
    ensures list { (h : DayHead) (opens : ℕ) → PileOf h opens pile.now → marks.new ≡ day_list result (first_day (keeps_all h opens) (product_layers h) steps.now (take (length steps.now) marks.old)) marks.old }
{
    pile.first_day(steps, marks, work)
}

// The worked figures of the rules are what the definitions compute.
pub fn worked_figures_hold()
    ensures { WorkedFigures }
{}
