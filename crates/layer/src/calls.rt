// The row calls of a layer, row by row, on rows that are of its width, so that each call below is granted. That they are
// stands at each function: a slice that is lent as `&mut` cannot carry it in a type. Three of them cut the row with the
// same number out of another slice, each in its closure, which is where its contract speaks of it.
ghost use Rattle.std.specs.Prelude.{◌≡◌, ◌+◌, ◌*◌, ◌≤◌, length, bit_or};
ghost use Rattle.resource.specs.Rows.{widest};
ghost use Rattle.layered.specs.Layered.{row_at, rows, join_lower};
ghost use Rattle.layer.specs.Words.{rows_of, step_of, join_of};

use crate::rows::{Rows, change_rows};
use records::step::Step;
use resource::interface::Resource;

impl<B: Resource> Rows<'_, B> {
    // One row in every place.
    pub(crate) fn fill(&self, row: &[u32], into: &mut [u32])
        requires row { length row.now ≡ self.now.wide }
        requires into { length into.old ≡ rows_of self.now.layer.now * self.now.wide }
        ensures { into.new ≡ rows (rows_of self.now.layer.now) (λ _. row.now) }
    {
        change_rows(
            self.count(),
            self.wide,
            into,
            |_: usize, place: &mut [u32]|
                requires { length place.old ≡ length row.now }
                ensures { place.new ≡ row.entry.now }
            { place.copy_from_slice(row) },
        );
    }

    pub(crate) fn write_start(&self, into: &mut [u32])
        requires into { length into.old ≡ rows_of self.now.layer.now * self.now.wide }
        ensures { into.new ≡ rows (rows_of self.now.layer.now) (λ g. B.Resource.start self.now.layer.now.below) }
    {
        let below = &self.layer.below;
        change_rows(
            self.count(),
            self.wide,
            into,
            |_: usize, row: &mut [u32]|
                requires row { length row.old ≡ B.Resource.width below.now }
                requires narrow { B.Resource.width below.now ≤ widest }
                ensures { row.new ≡ B.Resource.start below.entry.now }
            { below.write_start(row).unwrap() },
        );
    }

    // Each row from the row with its number alone.
    fn extend_each(&self, step: &Step, marks: u8, from: &[u32], into: &mut [u32])
        requires from { length from.now ≡ rows_of self.now.layer.now * self.now.wide }
        requires into { length into.old ≡ rows_of self.now.layer.now * self.now.wide }
        ensures { into.new ≡ rows (rows_of self.now.layer.now) (λ g. B.Resource.extension self.now.layer.now.below step.now marks (row_at self.now.wide from.now g)) }
    {
        let below = &self.layer.below;
        let wide = self.wide;
        change_rows(
            self.count(),
            wide,
            into,
            |g: usize, row: &mut [u32]|
                requires below { (wide ≡ B.Resource.width below.now) × (wide ≤ widest) }
                requires from { g * wide + wide ≤ length from.now }
                requires row { length row.old ≡ wide }
                ensures { row.new ≡ B.Resource.extension below.entry.now step.entry.now marks (row_at wide from.entry.now g) }
            {
                let at = g * wide;
                below
                    .extend(step, marks, &from[at..at + wide], row)
                    .unwrap()
            },
        );
    }

    // The first `count` rows joined with what a step makes of the rows with their numbers.
    fn extend_each_onto(&self, count: usize, step: &Step, marks: u8, from: &[u32], onto: &mut [u32])
        requires count { count ≤ rows_of self.now.layer.now }
        requires from { length from.now ≡ count * self.now.wide }
        requires onto { length onto.old ≡ count * self.now.wide }
        ensures { onto.new ≡ rows count (λ g. B.Resource.join self.now.layer.now.below (row_at self.now.wide onto.old g) (B.Resource.extension self.now.layer.now.below step.now marks (row_at self.now.wide from.now g))) }
    {
        let below = &self.layer.below;
        let wide = self.wide;
        change_rows(
            count,
            wide,
            onto,
            |g: usize, row: &mut [u32]|
                requires below { (wide ≡ B.Resource.width below.now) × (wide ≤ widest) }
                requires from { g * wide + wide ≤ length from.now }
                requires row { length row.old ≡ wide }
                ensures { row.new ≡ B.Resource.join below.entry.now row.old (B.Resource.extension below.entry.now step.entry.now marks (row_at wide from.entry.now g)) }
            {
                let at = g * wide;
                below
                    .extend_onto(step, marks, &from[at..at + wide], row)
                    .unwrap()
            },
        );
    }

    pub(crate) fn join_onto(&self, from: &[u32], onto: &mut [u32])
        requires from { length from.now ≡ rows_of self.now.layer.now * self.now.wide }
        requires onto { length onto.old ≡ rows_of self.now.layer.now * self.now.wide }
        ensures { onto.new ≡ join_of B.Resource self.now.layer.now self.now.wide onto.old from.now }
    {
        let below = &self.layer.below;
        let wide = self.wide;
        change_rows(
            self.count(),
            wide,
            onto,
            |g: usize, row: &mut [u32]|
                requires below { (wide ≡ B.Resource.width below.now) × (wide ≤ widest) }
                requires from { g * wide + wide ≤ length from.now }
                requires row { length row.old ≡ wide }
                ensures { row.new ≡ B.Resource.join below.entry.now row.old (row_at wide from.entry.now g) }
            {
                let at = g * wide;
                below.join_onto(&from[at..at + wide], row).unwrap()
            },
        );
    }

    // Joins onto each row but row 0 what a step that the layer marks too makes of the row with one number less.
    fn add_marked(&self, step: &Step, marks: u8, from: &[u32], onto: &mut [u32])
        requires from { length from.now ≡ rows_of self.now.layer.now * self.now.wide }
        requires onto { length onto.old ≡ rows_of self.now.layer.now * self.now.wide }
        ensures { onto.new ≡ rows (rows_of self.now.layer.now) (join_lower (B.Resource.join self.now.layer.now.below) (row_at self.now.wide onto.old) (λ g. B.Resource.extension self.now.layer.now.below step.now (bit_or marks self.now.layer.now.class) (row_at self.now.wide from.now g))) }
    {
        let budget = self.layer.budget;
        let marks = marks | self.layer.class;
        let lower = &from[..budget * self.wide];
        self.extend_each_onto(budget, step, marks, lower, &mut onto[self.wide..]);
    }

    // A step of the whole layer, into a row and joined onto one: the interface has a call for each.
    pub(crate) fn extend(&self, step: &Step, marks: u8, from: &[u32], into: &mut [u32])
        requires from { length from.now ≡ rows_of self.now.layer.now * self.now.wide }
        requires into { length into.old ≡ rows_of self.now.layer.now * self.now.wide }
        ensures { into.new ≡ step_of B.Resource self.now.layer.now self.now.wide step.now marks from.now }
    {
        self.extend_each(step, marks, from, into);
        self.add_marked(step, marks, from, into);
    }

    pub(crate) fn extend_onto(&self, step: &Step, marks: u8, from: &[u32], onto: &mut [u32])
        requires from { length from.now ≡ rows_of self.now.layer.now * self.now.wide }
        requires onto { length onto.old ≡ rows_of self.now.layer.now * self.now.wide }
        ensures { onto.new ≡ join_of B.Resource self.now.layer.now self.now.wide onto.old (step_of B.Resource self.now.layer.now self.now.wide step.now marks from.now) }
    {
        self.extend_each_onto(self.count(), step, marks, from, onto);
        self.add_marked(step, marks, from, onto);
    }
}
