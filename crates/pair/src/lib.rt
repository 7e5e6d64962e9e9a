// A pair of any two resources: their rows stand one behind the other, and each side extends and joins for itself.

#![tactic(auto)]

ghost use Rattle.std.specs.Prelude.{◌≡◌, [], ◌++◌, length, ◌==◌};
ghost use Rattle.std.proofs.Common.{sym, rules};
ghost use Rattle.resource.specs.Answers.{row_answer};
ghost use Rattle.resource.specs.Days.{own_verdict};
ghost use Rattle.pair.specs.Sides.{pair_width, pair_extension, pair_join, pair_verdict, both_accept};
ghost use Rattle.pair.specs.Laws.{pair_keeps, first_side, second_side, pair_lawful_at, sum_narrow, width_is};
ghost use Rattle.resource.specs.Unmarked.{survives_unmarked};

use records::step::Step;
use resource::interface::Resource;
use resource::limits::{TOO_WIDE, WIDEST};
use resource::questions::ask_row;
use resource::refusal::Refusal;
use resource::unlayered::Unlayered;

// Two resources side by side. The verdict needs both.
#[derive(Drop)]
pub struct Pair<First, Second> {
    pub first: First,
    pub second: Second,
}

impl<First: Resource, Second: Resource> Pair<First, Second> {
    // Where the second side's words begin in a row of the pair.
    fn split(&self, row: &[u32]) -> Result<usize, Refusal>
        ensures { result ≡ row_answer (pair_width (First.Resource.width self.now.first) (Second.Resource.width self.now.second)) (length row.now == pair_width (First.Resource.width self.now.first) (Second.Resource.width self.now.second)) (First.Resource.width self.now.first) }
    {
        let first = self.first.row_width();
        let width = first + self.second.row_width();
        ask_row(width, row.len())?;
        Ok(first)
    }
}

// Each call is that call of both sides, on their parts of the rows.
impl<First: Resource, Second: Resource> Resource for Pair<First, Second> {
    ghost width = { λ p. pair_width (First.Resource.width p.first) (Second.Resource.width p.second) };

    ghost start = { λ p. First.Resource.start p.first ++ Second.Resource.start p.second };

    ghost extension = { λ p. pair_extension (First.Resource.width p.first) (First.Resource.extension p.first) (Second.Resource.extension p.second) };

    ghost join = { λ p. pair_join (First.Resource.width p.first) (First.Resource.join p.first) (Second.Resource.join p.second) };

    ghost verdict = { λ p. pair_verdict (First.Resource.width p.first) (First.Resource.verdict p.first) (Second.Resource.verdict p.second) };

    // a pair is no layer, whatever its sides are
    ghost layers = { λ p. [] };

    ghost accepts = { λ p. own_verdict (pair_verdict (First.Resource.width p.first) (First.Resource.verdict p.first) (Second.Resource.verdict p.second)) (pair_extension (First.Resource.width p.first) (First.Resource.extension p.first) (Second.Resource.extension p.second)) (First.Resource.start p.first ++ Second.Resource.start p.second) };

    ghost bounded = { Prim.search rules };

    ghost lawful = { λ p narrow.
        let a = First.Resource.width p.first in
        let b = Second.Resource.width p.second in
        let one = First.Resource.lawful p.first (first_side a b narrow) in
        let two = Second.Resource.lawful p.second (second_side a b narrow) in
        pair_lawful_at one two (width_is a b (sum_narrow a b narrow)) };

    ghost judges_every_scenario = { λ p narrow ss ms e.
        let a = First.Resource.width p.first in
        let verdict = pair_verdict a (First.Resource.verdict p.first) (Second.Resource.verdict p.second) in
        let extension = pair_extension a (First.Resource.extension p.first) (Second.Resource.extension p.second) in
        sym (survives_unmarked (own_verdict verdict extension (First.Resource.start p.first ++ Second.Resource.start p.second)) ss ms e) };

    fn row_width(&self) -> usize {
        let width = self.first.row_width() + self.second.row_width();
        if width > WIDEST { TOO_WIDE } else { width }
    }

    fn write_start(&self, into: &mut [u32]) -> Result<(), Refusal> {
        let at = self.split(into)?;
        self.first.write_start(&mut into[..at])?;
        self.second.write_start(&mut into[at..])
    }

    // the loop of `judge_route` is made of it, and a quarter slower where it is called
    #[inline]
    fn extend(
        &self,
        step: &Step,
        marks: u8,
        from: &[u32],
        into: &mut [u32],
    ) -> Result<(), Refusal> {
        let at = self.split(from)?;
        self.split(into)?;
        self.first
            .extend(step, marks, &from[..at], &mut into[..at])?;
        self.second
            .extend(step, marks, &from[at..], &mut into[at..])
    }

    fn extend_onto(
        &self,
        step: &Step,
        marks: u8,
        from: &[u32],
        onto: &mut [u32],
    ) -> Result<(), Refusal> {
        let at = self.split(from)?;
        self.split(onto)?;
        self.first
            .extend_onto(step, marks, &from[..at], &mut onto[..at])?;
        self.second
            .extend_onto(step, marks, &from[at..], &mut onto[at..])
    }

    fn join_onto(&self, from: &[u32], onto: &mut [u32]) -> Result<(), Refusal> {
        let at = self.split(from)?;
        self.split(onto)?;
        self.first.join_onto(&from[..at], &mut onto[..at])?;
        self.second.join_onto(&from[at..], &mut onto[at..])
    }

    fn judge(&self, row: &[u32]) -> Result<bool, Refusal> {
        let at = self.split(row)?;
        let first = self.first.judge(&row[..at])?;
        let second = self.second.judge(&row[at..])?;
        Ok(first & second)
    }

    fn first_day(
        &self,
        steps: &[Step],
        marks: &mut [u8],
        work: &mut [u32],
    ) -> Result<bool, Refusal> {
        // as of a recursion; a body in the trait would be any layer's too
        let accepted = self.judge_route(steps, marks, work)?;
        Ok(!accepted)
    }
}

impl<First: Resource, Second: Resource> Unlayered for Pair<First, Second> {
    ghost width = { λ p. pair_width (First.Resource.width p.first) (Second.Resource.width p.second) };

    ghost start = { λ p. First.Resource.start p.first ++ Second.Resource.start p.second };

    ghost extension = { λ p. pair_extension (First.Resource.width p.first) (First.Resource.extension p.first) (Second.Resource.extension p.second) };

    ghost verdict = { λ p. pair_verdict (First.Resource.width p.first) (First.Resource.verdict p.first) (Second.Resource.verdict p.second) };

    ghost keeps = { λ p. both_accept (own_verdict (First.Resource.verdict p.first) (First.Resource.extension p.first) (First.Resource.start p.first)) (own_verdict (Second.Resource.verdict p.second) (Second.Resource.extension p.second) (Second.Resource.start p.second)) };

    ghost accepts_what_keeps = { λ p narrow ss ms.
        let a = First.Resource.width p.first in
        let b = Second.Resource.width p.second in
        pair_keeps (First.Resource.lawful p.first (first_side a b narrow)) (Second.Resource.lawful p.second (second_side a b narrow)) ss ms };

    fn words(&self) -> usize {
        self.row_width()
    }

    fn begin(&self, into: &mut [u32]) -> Result<(), Refusal> {
        self.write_start(into)
    }

    fn advance(
        &self,
        step: &Step,
        marks: u8,
        from: &[u32],
        into: &mut [u32],
    ) -> Result<(), Refusal> {
        self.extend(step, marks, from, into)
    }

    fn weigh(&self, row: &[u32]) -> Result<bool, Refusal> {
        self.judge(row)
    }
}
