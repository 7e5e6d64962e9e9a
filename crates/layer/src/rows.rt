// The rows of a layer, by the rules one behind the other: each row is one of the resource below.
ghost use Rattle.std.specs.Prelude.{◌≡◌, ℕ, ◌+◌, ◌*◌, ◌<◌, ◌≤◌, length, IfOk, ◌==◌};
ghost use Rattle.resource.specs.Rows.{widest};
ghost use Rattle.resource.specs.Answers.{row_answer};
ghost use Rattle.resource.specs.Making.{figure_made};
ghost use Rattle.layered.specs.Layered.{row_at};
ghost use Rattle.layer.specs.Words.{rows_of, width_of};
ghost use Rattle.layer.specs.Changes.{EachDone};

use crate::Layer;
use resource::interface::Resource;
use resource::questions::ask_row;
use resource::refusal::Refusal;

// A layer that is not too wide, and how many words a row of the resource below has.
#[derive(Drop)]
pub(crate) struct Rows<'a, B: Resource> {
    pub(crate) layer: &'a Layer<B>,
    pub(crate) wide: usize,
    ghost below: { wide ≡ B.Resource.width layer.now.below },
    ghost narrow: { rows_of layer.now * wide ≤ widest },
}

impl<B: Resource> Layer<B> {
    // Is the layer not too wide, and does a row have the layer's width?
    pub(crate) fn ask_row(&self, words: usize) -> Result<Rows<'_, B>, Refusal>
        ensures answer { figure_made (λ r. r.wide) result ≡ row_answer (width_of B.Resource self.now) (words == width_of B.Resource self.now) (B.Resource.width self.now.below) }
        ensures layer { IfOk result (λ r. r.layer.now ≡ self.now) }
    {
        let wide = self.below.row_width();
        ask_row((self.budget + 1) * wide, words)?;
        Ok(Rows { layer: self, wide })
    }
}

impl<B: Resource> Rows<'_, B> {
    // How many rows there are.
    pub(crate) fn count(&self) -> usize
        ensures { result ≡ rows_of self.now.layer.now }
    {
        self.layer.budget + 1
    }

    // Row number g. (A plain number with a precondition: a type for it would have to lend the layer again.)
    pub(crate) fn row<'r>(&self, g: usize, rows: &'r [u32]) -> &'r [u32]
        requires number { g ≤ self.now.layer.now.budget }
        requires rows { length rows.now ≡ rows_of self.now.layer.now * self.now.wide }
        ensures value { result.now ≡ row_at self.now.wide rows.now g }
        ensures width { length result.now ≡ self.now.wide }
    {
        let at = g * self.wide;
        &rows[at..at + self.wide]
    }
}

// Changes rows of a width one after the other, each by a call that is given its number. The rows are cut by their numbers:
// of what `chunks_exact_mut` lends, no more than the length is known afterwards.
pub(crate) fn change_rows<F: Fn(usize, &mut [u32])>(
    count: usize,
    wide: usize,
    rows: &mut [u32],
    change: F,
)
    requires narrow { count * wide ≤ widest }
    requires rows { length rows.old ≡ count * wide }
    requires callable { (g : ℕ) (row : _) → g < count → length row.now ≡ wide → F.pre change g row }
    ensures width { length rows.new ≡ count * wide }
    ensures done { EachDone (F.post change) wide count rows.old rows.new }
{
    for g in 0..count {
        let at = g * wide;
        change(g, &mut rows[at..at + wide]);
    }
}
