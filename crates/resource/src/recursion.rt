// A resource whose row is a few words states what a step makes of them; the rest of it is written here once.
ghost use Rattle.std.specs.Prelude.{◌≡◌, ◌≢◌, ℕ, ◌≤◌, List, [], length, MatchOption, MatchResult};
ghost use Rattle.std.proofs.Common.{sym, arith, ◌∙◌, ◌≤◌};
ghost use Rattle.records.specs.declared.step.Step.{Step as RouteStep};
ghost use Rattle.resource.specs.Rows.{Extension, Lawful, widest};
ghost use Rattle.resource.specs.Scenarios.{Accepts};
ghost use Rattle.resource.specs.Days.{own_verdict};
ghost use Rattle.resource.specs.Unmarked.{survives_unmarked};
ghost use Rattle.resource.specs.Words.{greater, sound};

use crate::interface::Resource;
use crate::refusal::Refusal;
use crate::rows::{join_words, judge_words, write_words};
use records::step::Step;

// The words of a row, so many that the type tells.
pub trait Words: Copy {
    ghost WIDTH: { ℕ };

    ghost words: { Self → List ℕ };

    const WIDTH: usize;

    // None where the row is of another width.
    fn from_row(row: &[u32]) -> Option<Self>
        ensures { MatchOption result (length row.now ≢ WIDTH) (λ w. (length row.now ≡ WIDTH) × (words w ≡ row.now)) };

    fn as_row(&self) -> &[u32]
        ensures { result.now ≡ words self.now };
}

impl<const N: usize> Words for [u32; N] {
    ghost WIDTH = { N };

    ghost words = { λ w. w };

    const WIDTH: usize = N;

    fn from_row(row: &[u32]) -> Option<[u32; N]> {
        row.try_into().ok()
    }

    fn as_row(&self) -> &[u32] {
        self
    }
}

// A recursion: what a step with its marks makes of a row of a few words. Rows are joined by the greater word at each
// place, and judged by the ceiling.
pub trait Recursion {
    type Row: Words;

    // the words at the start of a route
    ghost begins: { Self → List ℕ };

    // what a step with its marks makes of a row
    ghost extension: { Self → Extension };

    // whether a route with its marks keeps the resource's limits, said of the route and not of rows
    ghost keeps: { Self → Accepts };

    fn first(&self) -> Self::Row
        ensures { Self.Row.words result ≡ begins self.now };

    fn next(&self, step: &Step, marks: u8, row: Self::Row) -> Self::Row
        ensures { Self.Row.words result ≡ extension self.now step.now marks (Self.Row.words row) };

    ghost narrow: { (r : Self) → Self.Row.WIDTH ≤ widest };

    ghost lawful: { (r : Self) → Lawful Self.Row.WIDTH (begins r) (extension r) greater sound };

    ghost accepts_what_keeps: { (r : Self) (ss : List RouteStep) (ms : List ℕ) → own_verdict sound (extension r) (begins r) ss ms ≡ keeps r ss ms };
}

// What a step makes of a row; refused of a row of another width.
fn next_row<R: Recursion>(
    resource: &R,
    step: &Step,
    marks: u8,
    from: &[u32],
) -> Result<R::Row, Refusal>
    ensures { MatchResult result (λ w. (length from.now ≡ R.Row.WIDTH) × (R.Row.words w ≡ R.extension resource.now step.now marks from.now)) (λ e. (length from.now ≢ R.Row.WIDTH) × (e ≡ Refusal.OtherWidth)) }
{
    let row = R::Row::from_row(from).ok_or(Refusal::OtherWidth)?;
    Ok(resource.next(step, marks, row))
}

impl<R: Recursion> Resource for R {
    ghost width = { λ r. R.Row.WIDTH };

    ghost start = { λ r. R.begins r };

    ghost extension = { λ r. R.Recursion.extension r };

    ghost join = { λ r. greater };

    ghost verdict = { λ r. sound };

    ghost layers = { λ r. [] };

    ghost accepts = { λ r. own_verdict sound (R.Recursion.extension r) (R.begins r) };

    ghost bounded = { λ r. omega (arith, R.narrow r) };

    ghost lawful = { λ r narrow. R.Recursion.lawful r };

    ghost judges_every_scenario = { λ r narrow ss ms e. sym (survives_unmarked (own_verdict sound (R.Recursion.extension r) (R.begins r)) ss ms e) };

    fn row_width(&self) -> usize {
        R::Row::WIDTH
    }

    fn write_start(&self, into: &mut [u32]) -> Result<(), Refusal> {
        write_words(self.first().as_row(), into)
    }

    // the loop of `judge_route` is made of it
    #[inline]
    fn extend(
        &self,
        step: &Step,
        marks: u8,
        from: &[u32],
        into: &mut [u32],
    ) -> Result<(), Refusal> {
        let row = next_row(self, step, marks, from)?;
        write_words(row.as_row(), into)
    }

    fn extend_onto(
        &self,
        step: &Step,
        marks: u8,
        from: &[u32],
        onto: &mut [u32],
    ) -> Result<(), Refusal> {
        let row = next_row(self, step, marks, from)?;
        join_words(R::Row::WIDTH, row.as_row(), onto)
    }

    fn join_onto(&self, from: &[u32], onto: &mut [u32]) -> Result<(), Refusal> {
        join_words(R::Row::WIDTH, from, onto)
    }

    fn judge(&self, row: &[u32]) -> Result<bool, Refusal> {
        judge_words(R::Row::WIDTH, row)
    }

    fn first_day(
        &self,
        steps: &[Step],
        marks: &mut [u8],
        work: &mut [u32],
    ) -> Result<bool, Refusal> {
        // as of a pair; a body in the trait would be any layer's too
        let accepted = self.judge_route(steps, marks, work)?;
        Ok(!accepted)
    }
}
