// The interface of a resource, with its meaning and its laws.
ghost use Rattle.std.specs.Prelude.{◌≡◌, ℕ, ◌≤◌, Bool, true, ◌&&◌, List, length, take, is_some, ◌==◌};
ghost use Rattle.records.specs.declared.step.Step.{Step as RouteStep};
ghost use Rattle.resource.specs.Rows.{Extension, Lawful, run, widest};
ghost use Rattle.resource.specs.Scenarios.{Budget, Accepts, survives, first_day};
ghost use Rattle.resource.specs.Answers.{row_answer, written, day_answer, day_list};

use crate::questions::ask_route;
use crate::refusal::Refusal;
use records::step::Step;

pub trait Resource {
    // how many words a row has; 4,097 means too wide
    ghost width: { Self → ℕ };

    // the row at the start of a route
    ghost start: { Self → List ℕ };

    // what a step with its marks makes of a row
    ghost extension: { Self → Extension };

    // two rows in one, no better than either
    ghost join: { Self → List ℕ → List ℕ → List ℕ };

    // yes or no on a row
    ghost verdict: { Self → List ℕ → Bool };

    // the budget layers, the outermost first; none where the resource is no layer
    ghost layers: { Self → List Budget };

    // whether the resource under the layers accepts steps with marks
    ghost accepts: { Self → Accepts };

    fn row_width(&self) -> usize
        ensures { result ≡ width self.now };

    fn write_start(&self, into: &mut [u32]) -> Result<(), Refusal>
        ensures answer { result ≡ row_answer (width self.now) (length into.old == width self.now) tt }
        ensures row { into.new ≡ written result (start self.now) into.old };

    fn extend(&self, step: &Step, marks: u8, from: &[u32], into: &mut [u32]) -> Result<(), Refusal>
        ensures answer { result ≡ row_answer (width self.now) (length from.now == width self.now && length into.old == width self.now) tt }
        ensures row { into.new ≡ written result (extension self.now step.now marks from.now) into.old };

    fn extend_onto(
        &self,
        step: &Step,
        marks: u8,
        from: &[u32],
        onto: &mut [u32],
    ) -> Result<(), Refusal>
        ensures answer { result ≡ row_answer (width self.now) (length from.now == width self.now && length onto.old == width self.now) tt }
        ensures row { onto.new ≡ written result (join self.now onto.old (extension self.now step.now marks from.now)) onto.old };

    fn join_onto(&self, from: &[u32], onto: &mut [u32]) -> Result<(), Refusal>
        ensures answer { result ≡ row_answer (width self.now) (length from.now == width self.now && length onto.old == width self.now) tt }
        ensures row { onto.new ≡ written result (join self.now onto.old from.now) onto.old };

    fn judge(&self, row: &[u32]) -> Result<bool, Refusal>
        ensures { result ≡ row_answer (width self.now) (length row.now == width self.now) (verdict self.now row.now) };

    // Whether the resource under the layers accepts the steps in every scenario, the marks in the list counting in each.
    // Steps, marks and work slice are memory of the caller by the rules, so steps and marks are two lists.
    // What the work slice then holds is left open.
    fn judge_route(&self, steps: &[Step], marks: &[u8], work: &mut [u32]) -> Result<bool, Refusal>
        ensures { result ≡ day_answer (width self.now) (length steps.now) (length marks.now) (length work.old) (survives (accepts self.now) (layers self.now) steps.now (take (length steps.now) marks.now)) }
    {
        let width = self.row_width();
        ask_route(width, steps.len(), marks.len(), work.len())?;
        let (row, rest) = work.split_at_mut(width);
        let next = &mut rest[..width];
        self.write_start(row)?;
        for (step, mark) in steps.iter().zip(marks) {
            self.extend(step, *mark, row, next)?;
            row.copy_from_slice(next);
        }
        self.judge(row)
    }

    // Whether there is a day on which the steps are refused, the marks in the list counting in each scenario. The first
    // such day's marks are added to the list. What the work slice then holds is left open.
    fn first_day(&self, steps: &[Step], marks: &mut [u8], work: &mut [u32]) -> Result<bool, Refusal>
        ensures answer { result ≡ day_answer (width self.now) (length steps.now) (length marks.old) (length work.old) (is_some (first_day (accepts self.now) (layers self.now) steps.now (take (length steps.now) marks.old))) }
        ensures list { marks.new ≡ day_list result (first_day (accepts self.now) (layers self.now) steps.now (take (length steps.now) marks.old)) marks.old };

    ghost bounded: { (r : Self) → width r ≤ 4097 };

    ghost lawful: { (r : Self) → width r ≤ widest → Lawful (width r) (start r) (extension r) (join r) (verdict r) };

    // The verdict on the row that a route makes of the start row is yes exactly when the resource under the layers
    // accepts the route in every scenario, whatever marks were given beforehand.
    ghost judges_every_scenario: { (r : Self) → width r ≤ widest → (ss : List RouteStep) (ms : List ℕ) → length ms ≡ length ss → verdict r (run (extension r) ss ms (start r)) ≡ survives (accepts r) (layers r) ss ms };
}
