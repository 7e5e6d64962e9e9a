// The search for a layer's part of the first refused day. Steps and marks stay two lists, as the interface takes them: the
// marks are written, and a struct of a `&mut` cannot carry that both are of one length.
ghost use Rattle.std.specs.Prelude.{◌≡◌, ◌+◌, ◌*◌, ◌<◌, ◌≤◌, false, not, length, if◌then◌else◌};
ghost use Rattle.resource.specs.Rows.{run};
ghost use Rattle.layer.specs.Words.{rows_of, step_of, accepted_by, chosen_by, ChoseBy};

use crate::rows::Rows;
use records::step::Step;
use resource::interface::Resource;

impl<B: Resource> Rows<'_, B> {
    // What a route makes of the layer's row `state`. Not the loop of `judge_route`, which begins at the start row: this need
    // not.
    fn run_on(&self, steps: &[Step], marks: &[u8], state: &mut [u32], next: &mut [u32])
        requires marks { length marks.now ≡ length steps.now }
        requires state { length state.old ≡ rows_of self.now.layer.now * self.now.wide }
        requires next { length next.old ≡ rows_of self.now.layer.now * self.now.wide }
        ensures { state.new ≡ run (step_of B.Resource self.now.layer.now self.now.wide) steps.now marks.now state.old }
    {
        for (step, mark) in steps.iter().zip(marks) {
            self.extend(step, *mark, state, next);
            state.copy_from_slice(next);
        }
    }

    // Whether a route that goes on from a row below is refused on some day, with at most `left` steps marked. (`left` is a
    // plain number with a precondition: a type for it would have to lend the layer again beside the rows.)
    fn refuses(
        &self,
        left: usize,
        steps: &[Step],
        marks: &[u8],
        row: &[u32],
        work: &mut [u32],
    ) -> bool
        requires marks { length marks.now ≡ length steps.now }
        requires left { left ≤ self.now.layer.now.budget }
        requires row { length row.now ≡ self.now.wide }
        requires work { 2 * (rows_of self.now.layer.now * self.now.wide) ≤ length work.old }
        ensures { result ≡ not (accepted_by B.Resource self.now.layer.now steps.now marks.now row.now left) }
    {
        let width = self.count() * self.wide;
        let (state, rest) = work.split_at_mut(width);
        let next = &mut rest[..width];
        self.fill(row, state);
        self.run_on(steps, marks, state, next);
        !self.layer.below.judge(self.row(left, state)).unwrap()
    }

    // Marks the first step if no refused day leaves it unmarked, and takes the row one step on. Gives the budget left.
    fn choose_step(
        &self,
        left: usize,
        steps: &[Step],
        marks: &mut [u8],
        row: &mut [u32],
        work: &mut [u32],
    ) -> usize
        requires marks { length marks.old ≡ length steps.now }
        requires some { 0 < length steps.now }
        requires left { left ≤ self.now.layer.now.budget }
        requires row { length row.old ≡ self.now.wide }
        requires work { self.now.wide + 2 * (rows_of self.now.layer.now * self.now.wide) ≤ length work.old }
        requires refused { accepted_by B.Resource self.now.layer.now steps.now marks.old row.old left ≡ false }
        ensures { ChoseBy B.Resource self.now.layer.now steps.now marks.old row.old left marks.new row.new result }
    {
        let (spare, rest) = work.split_at_mut(self.wide);
        self.layer
            .below
            .extend(&steps[0], marks[0], row, spare)
            .unwrap();
        if self.refuses(left, &steps[1..], &marks[1..], spare, rest) {
            row.copy_from_slice(spare);
            return left;
        }
        marks[0] |= self.layer.class;
        self.layer
            .below
            .extend(&steps[0], marks[0], row, spare)
            .unwrap();
        row.copy_from_slice(spare);
        left - 1
    }

    // The layer's set of the first refused day, put into the marks; `row` is the start below.
    fn choose_set(&self, steps: &[Step], marks: &mut [u8], row: &mut [u32], work: &mut [u32])
        requires marks { length marks.old ≡ length steps.now }
        requires row { length row.old ≡ self.now.wide }
        requires work { self.now.wide + 2 * (rows_of self.now.layer.now * self.now.wide) ≤ length work.old }
        requires refused { accepted_by B.Resource self.now.layer.now steps.now marks.old row.old self.now.layer.now.budget ≡ false }
        ensures { marks.new ≡ chosen_by B.Resource self.now.layer.now steps.now marks.old row.old self.now.layer.now.budget }
    {
        let mut left = self.layer.budget;
        // each turn looks at all that is left of both lists
        for i in 0..steps.len() {
            left = self.choose_step(left, &steps[i..], &mut marks[i..], row, work);
        }
    }

    // Whether some day is refused; if so, the layer's set of the first one is put into the marks.
    pub(crate) fn choose_day(&self, steps: &[Step], marks: &mut [u8], work: &mut [u32]) -> bool
        requires marks { length marks.old ≡ length steps.now }
        requires work { 4 * (rows_of self.now.layer.now * self.now.wide) ≤ length work.old }
        ensures answer { result ≡ not (accepted_by B.Resource self.now.layer.now steps.now marks.old (B.Resource.start self.now.layer.now.below) self.now.layer.now.budget) }
        ensures list { marks.new ≡ (if accepted_by B.Resource self.now.layer.now steps.now marks.old (B.Resource.start self.now.layer.now.below) self.now.layer.now.budget then marks.old else chosen_by B.Resource self.now.layer.now steps.now marks.old (B.Resource.start self.now.layer.now.below) self.now.layer.now.budget) }
    {
        let (row, rest) = work.split_at_mut(self.wide);
        self.layer.below.write_start(row).unwrap();
        if !self.refuses(self.layer.budget, steps, marks, row, rest) {
            return false;
        }
        self.choose_set(steps, marks, row, rest);
        true
    }
}
