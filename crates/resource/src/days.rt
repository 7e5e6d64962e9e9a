// The first day of a resource that is no layer: it has one scenario, unmarked, so the marks that the list holds decide.
ghost use Rattle.std.specs.Prelude.{◌≡◌, ◌≤◌, not, length, take, Ok};
ghost use Rattle.resource.specs.Rows.{widest};
ghost use Rattle.resource.specs.Answers.{day_answer};
ghost use Rattle.resource.specs.Days.{own_verdict};

use crate::questions::ask_route;
use crate::refusal::Refusal;
use crate::unlayered::Unlayered;
use records::step::Step;

// Whether the steps with the marks in the list are refused. The list stays as it is; what the work slice then holds is
// left open. `judge_route` asks for a resource with joins and their laws, and this for no join.
pub fn refused_as_marked<R: Unlayered>(
    resource: &R,
    steps: &[Step],
    marks: &[u8],
    work: &mut [u32],
) -> Result<bool, Refusal>
    ensures { result ≡ day_answer (R.width resource.now) (length steps.now) (length marks.now) (length work.old) (not (own_verdict (R.verdict resource.now) (R.extension resource.now) (R.start resource.now) steps.now (take (length steps.now) marks.now))) }
{
    let width = resource.words();
    ask_route(width, steps.len(), marks.len(), work.len())?;
    let (row, rest) = work.split_at_mut(width);
    let accepted = judge_run(
        resource,
        steps,
        &marks[..steps.len()],
        row,
        &mut rest[..width],
    )?;
    Ok(!accepted)
}

// The verdict on the row that steps with their marks make of the start row. Both rows are of the width; the second is
// where each step writes. Not the loop of `judge_route`, whose calls are those of a whole resource.
fn judge_run<R: Unlayered>(
    resource: &R,
    steps: &[Step],
    marks: &[u8],
    row: &mut [u32],
    next: &mut [u32],
) -> Result<bool, Refusal>
    requires narrow { R.width resource.now ≤ widest }
    requires marks { length marks.now ≡ length steps.now }
    requires row { length row.old ≡ R.width resource.now }
    requires next { length next.old ≡ R.width resource.now }
    ensures { result ≡ Ok (own_verdict (R.verdict resource.now) (R.extension resource.now) (R.start resource.now) steps.now marks.now) }
{
    resource.begin(row)?;
    for (step, mark) in steps.iter().zip(marks) {
        resource.advance(step, *mark, row, next)?;
        row.copy_from_slice(next);
    }
    resource.weigh(row)
}
