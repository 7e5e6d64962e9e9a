// A resource that is no layer: what its first day rests on, and what its verdict on a route says. It has four of the calls
// of `Resource`, under names of its own, and owes one law; no join is asked for, no layers and none of the laws of rows.
ghost use Rattle.std.specs.Prelude.{◌≡◌, ℕ, ◌≤◌, Bool, ◌&&◌, List, length, ◌==◌};
ghost use Rattle.records.specs.declared.step.Step.{Step as RouteStep};
ghost use Rattle.resource.specs.Answers.{row_answer, written};
ghost use Rattle.resource.specs.Rows.{Extension, widest};
ghost use Rattle.resource.specs.Scenarios.{Accepts};
ghost use Rattle.resource.specs.Days.{own_verdict};
ghost use Rattle.resource.specs.Words.{sound};

use crate::interface::Resource;
use crate::recursion::{Recursion, Words};
use crate::refusal::Refusal;
use records::step::Step;

pub trait Unlayered {
    ghost width: { Self → ℕ };

    ghost start: { Self → List ℕ };

    ghost extension: { Self → Extension };

    ghost verdict: { Self → List ℕ → Bool };

    // whether a route with its marks keeps the resource's limits, said of the route and not of rows
    ghost keeps: { Self → Accepts };

    // the width
    fn words(&self) -> usize
        ensures { result ≡ width self.now };

    // writes the start row
    fn begin(&self, into: &mut [u32]) -> Result<(), Refusal>
        ensures answer { result ≡ row_answer (width self.now) (length into.old == width self.now) tt }
        ensures row { into.new ≡ written result (start self.now) into.old };

    // extends a row into another
    fn advance(&self, step: &Step, marks: u8, from: &[u32], into: &mut [u32]) -> Result<(), Refusal>
        ensures answer { result ≡ row_answer (width self.now) (length from.now == width self.now && length into.old == width self.now) tt }
        ensures row { into.new ≡ written result (extension self.now step.now marks from.now) into.old };

    // judges a row
    fn weigh(&self, row: &[u32]) -> Result<bool, Refusal>
        ensures { result ≡ row_answer (width self.now) (length row.now == width self.now) (verdict self.now row.now) };

    ghost accepts_what_keeps: { (r : Self) → width r ≤ widest → (ss : List RouteStep) (ms : List ℕ) → own_verdict (verdict r) (extension r) (start r) ss ms ≡ keeps r ss ms };
}

impl<R: Recursion> Unlayered for R {
    ghost width = { λ r. R.Row.WIDTH };

    ghost start = { λ r. R.begins r };

    ghost extension = { λ r. R.Recursion.extension r };

    ghost verdict = { λ r. sound };

    ghost keeps = { λ r. R.Recursion.keeps r };

    ghost accepts_what_keeps = { λ r narrow ss ms. R.Recursion.accepts_what_keeps r ss ms };

    fn words(&self) -> usize {
        self.row_width()
    }

    fn begin(&self, into: &mut [u32]) -> Result<(), Refusal> {
        self.write_start(into)
    }

    fn advance(
        &self,
        step: &Step,
        marks: u8,
        from: &[u32],
        into: &mut [u32],
    ) -> Result<(), Refusal> {
        self.extend(step, marks, from, into)
    }

    fn weigh(&self, row: &[u32]) -> Result<bool, Refusal> {
        self.judge(row)
    }
}
