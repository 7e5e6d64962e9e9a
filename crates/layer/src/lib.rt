// A budget layer over any resource: on each route at most so many steps, the budget, have marks of the layer's class.
// A layer is a resource itself, so layers can be piled up.

#![tactic(auto)]

ghost use Rattle.std.specs.Prelude.{◌≡◌, ℕ, ◌≤◌, true, ◌∷◌, Some, None, MatchResult};
ghost use Rattle.std.proofs.Common.{sym, subst, rules};
ghost use Rattle.layered.specs.Layered.{layered_width, layered_start, layered_extension, layered_join, layered_verdict};
ghost use Rattle.layer.specs.Making.{one_bit, greatest, making};
ghost use Rattle.resource.specs.Rows.{Lawful};
ghost use Rattle.layered.proofs.Widths.{fits};
ghost use Rattle.layered.proofs.Laws.{layered_lawful};
ghost use Rattle.layered.proofs.Piles.{layered_judges};

use crate::rows::Rows;
use records::limits::MOST_BUDGET;
use records::step::Step;
use resource::interface::Resource;
use resource::limits::{TOO_WIDE, WIDEST};
use resource::questions::ask_route;
use resource::refusal::Refusal;

mod calls;
mod days;
mod rows;

// the greatest budget
const GREATEST_BUDGET: u32 = MOST_BUDGET;

// A budget layer: its row is one row of the resource below for each number of marks that a route may have taken from the
// budget, from none to all of it.
#[derive(Drop)]
pub struct Layer<B> {
    // one bit of a byte: the mark that the layer sets on a step; a number, since five of the bits have no name
    class: u8,
    // the most steps of a route that it marks
    budget: usize,
    below: B,
    ghost small: { budget ≤ greatest },
    ghost single: { one_bit class ≡ true },
}

impl<B: Resource + Drop> Layer<B> {
    // Where the layer is refused the resource below is let go, so it has to be one that may be dropped.
    pub fn new(class: u8, budget: u32, below: B) -> Result<Self, Refusal>
        ensures { MatchResult result (λ l. (making class budget ≡ None) × (l.class ≡ class) × (l.budget ≡ budget) × (l.below ≡ below)) (λ e. making class budget ≡ Some e) }
    {
        if budget > GREATEST_BUDGET {
            return Err(Refusal::BudgetTooGreat);
        }
        if !class.is_power_of_two() {
            return Err(Refusal::ClassNotOneBit);
        }
        Ok(Layer {
            class,
            budget: budget as usize,
            below,
        })
    }
}

impl<B: Resource> Resource for Layer<B> {
    ghost width = { λ l. layered_width l.budget (B.Resource.width l.below) };

    ghost start = { λ l. layered_start l.budget (B.Resource.start l.below) };

    ghost extension = { λ l. layered_extension l.class l.budget (B.Resource.width l.below) (B.Resource.extension l.below) (B.Resource.join l.below) };

    ghost join = { λ l. layered_join l.budget (B.Resource.width l.below) (B.Resource.join l.below) };

    ghost verdict = { λ l. layered_verdict l.budget (B.Resource.width l.below) (B.Resource.verdict l.below) };

    ghost layers = { λ l. record { class = l.class; most = l.budget } ∷ B.Resource.layers l.below };

    ghost accepts = { λ l. B.Resource.accepts l.below };

    ghost bounded = { Prim.search rules };

    ghost lawful = { λ r narrow.
        let b = r.below in
        let w = B.Resource.width b in
        let fit = fits r.budget w narrow in
        subst
        (λ (n : ℕ). Lawful n (layered_start r.budget (B.Resource.start b)) (layered_extension r.class r.budget w (B.Resource.extension b) (B.Resource.join b)) (layered_join r.budget w (B.Resource.join b)) (layered_verdict r.budget w (B.Resource.verdict b)))
        (sym fit.whole) (layered_lawful (B.Resource.lawful b fit.below) r.class r.budget) };

    ghost judges_every_scenario = { λ r narrow ss ms same.
        let b = r.below in
        let fit = fits r.budget (B.Resource.width b) narrow in
        let judges = B.Resource.judges_every_scenario b fit.below in
        layered_judges (B.Resource.start b) (B.Resource.extension b) (B.Resource.verdict b) (B.Resource.layers b) (B.Resource.accepts b) judges (record { class = r.class; most = r.budget }) (B.Resource.lawful b fit.below) ss ms same };

    fn row_width(&self) -> usize {
        let width = (self.budget + 1) * self.below.row_width();
        if width <= WIDEST { width } else { TOO_WIDE }
    }

    fn write_start(&self, into: &mut [u32]) -> Result<(), Refusal> {
        self.ask_row(into.len())?.write_start(into);
        Ok(())
    }

    fn extend(
        &self,
        step: &Step,
        marks: u8,
        from: &[u32],
        into: &mut [u32],
    ) -> Result<(), Refusal> {
        self.ask_row(from.len())?;
        self.ask_row(into.len())?.extend(step, marks, from, into);
        Ok(())
    }

    fn extend_onto(
        &self,
        step: &Step,
        marks: u8,
        from: &[u32],
        onto: &mut [u32],
    ) -> Result<(), Refusal> {
        self.ask_row(from.len())?;
        self.ask_row(onto.len())?
            .extend_onto(step, marks, from, onto);
        Ok(())
    }

    fn join_onto(&self, from: &[u32], onto: &mut [u32]) -> Result<(), Refusal> {
        self.ask_row(from.len())?;
        self.ask_row(onto.len())?.join_onto(from, onto);
        Ok(())
    }

    fn judge(&self, row: &[u32]) -> Result<bool, Refusal> {
        let rows = self.ask_row(row.len())?;
        self.below.judge(rows.row(self.budget, row))
    }

    fn first_day(
        &self,
        steps: &[Step],
        marks: &mut [u8],
        work: &mut [u32],
    ) -> Result<bool, Refusal> {
        let wide = self.below.row_width();
        let width = (self.budget + 1) * wide;
        ask_route(width, steps.len(), marks.len(), work.len())?;
        let rows = Rows { layer: self, wide };
        // the layer's own marks first: the scenarios are ordered by the outermost layer
        if !rows.choose_day(steps, &mut marks[..steps.len()], work) {
            return Ok(false);
        }
        self.below.first_day(steps, marks, work)
    }
}
