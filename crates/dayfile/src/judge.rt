// Whether a line stands where it does, and what is due after it.
ghost use Rattle.std.specs.Prelude.{◌≡◌, Some, MatchOption, ◌≢◌};
ghost use Rattle.lines.specs.Forms.{form_of};
ghost use Rattle.dayfile.specs.Expecting.{form_due, subject_due, after_stop, after_row, after_leg, Follows, Judged};

use crate::bounds::{Subject, is_ordered, is_within, subject_of};
use crate::expectation::{Expectation, Question};
use lines::line::Line;

// After stop k of n: the next stop, or the first leg.
fn after_stop(k: u32, n: u32) -> Expectation
    ensures { result ≡ after_stop k n }
{
    if k < n {
        Expectation::Stop(k + 1, n)
    } else {
        Expectation::Leg(0, 1, n)
    }
}

// After the last leg from i: the first leg from the next place, or the end.
fn after_row(i: u32, n: u32) -> Expectation
    ensures { result ≡ after_row i n }
{
    if i < n {
        Expectation::Leg(i + 1, 0, n)
    } else {
        Expectation::End
    }
}

// After the leg from i to j: the leg from i to the next place that is not i.
fn after_leg(i: u32, j: u32, n: u32) -> Expectation
    ensures { result ≡ after_leg i j n }
{
    if j < n {
        if j + 1 != i {
            Expectation::Leg(i, j + 1, n)
        } else if j + 1 < n {
            Expectation::Leg(i, j + 2, n)
        } else {
            after_row(i, n)
        }
    } else {
        after_row(i, n)
    }
}

// What is due after a line, or none where the line is not of the form due.
#[tactic(auto, using(crate::proofs::Following::following))]
pub fn after(due: Expectation, line: Line) -> Option<Expectation>
    ensures { MatchOption result (Some (form_of line) ≢ form_due due) (λ next. Follows due line next) }
{
    match (due, line) {
        (Expectation::Day, Line::Day) => Some(Expectation::Depot),
        (Expectation::Depot, Line::Depot(_, _)) => Some(Expectation::Capacity),
        (Expectation::Capacity, Line::Capacity(_)) => Some(Expectation::Drive),
        (Expectation::Drive, Line::Drive(_)) => Some(Expectation::TravelBudget),
        (Expectation::TravelBudget, Line::TravelBudget(_)) => Some(Expectation::ServeBudget),
        (Expectation::ServeBudget, Line::ServeBudget(_)) => Some(Expectation::DemandBudget),
        (Expectation::DemandBudget, Line::DemandBudget(_)) => Some(Expectation::Stops),
        (Expectation::Stops, Line::Stops(n)) => Some(Expectation::Stop(1, n)),
        (Expectation::Stop(k, n), Line::Stop(_, _)) => Some(after_stop(k, n)),
        (Expectation::Leg(i, j, n), Line::Leg(_, _, _)) => Some(after_leg(i, j, n)),
        (Expectation::End, Line::End) => Some(Expectation::Nothing),
        _ => None,
    }
}

fn subject_due(due: Expectation) -> Option<Subject>
    ensures { result ≡ subject_due due }
{
    match due {
        Expectation::Stop(k, _) => Some(Subject::Stop(k)),
        Expectation::Leg(i, j, _) => Some(Subject::Leg(i, j)),
        _ => None,
    }
}

// What is due after a line that stands where it does, or the first question that it answers no.
#[tactic(auto, using(crate::proofs::Following::judging))]
pub fn judge(due: Expectation, line: Line) -> Result<Expectation, Question>
    ensures { Judged due line result }
{
    let next = after(due, line).ok_or(Question::Form)?;
    if !is_within(line) {
        return Err(Question::Bounds);
    }
    if subject_of(line) == subject_due(due) && is_ordered(line) {
        Ok(next)
    } else {
        Err(Question::Turn)
    }
}
