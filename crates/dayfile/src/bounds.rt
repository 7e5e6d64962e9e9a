// The bounds of every number of a day file.
ghost use Rattle.std.specs.Prelude.{◌≡◌};
ghost use Rattle.dayfile.specs.Bounds.{is_time, is_quantity, is_count, sound_stop, sound_leg, within, ordered, subject};

use lines::line::Line;
pub use records::limits::{MOST_BUDGET, MOST_CRATES, MOST_SECONDS, MOST_STOPS};
use records::{Leg, Stop};

// What a line tells of, beside the day as a whole.
#[derive(Clone, Copy, PartialEq, Eq, Debug)]
pub enum Subject {
    // a stop's number
    Stop(u32),
    // the places that a leg leads from and to
    Leg(u32, u32),
}

// A range of its own for each kind of number, as in the rules.
fn is_time(seconds: u32) -> bool
    ensures { result ≡ is_time seconds }
{
    seconds <= MOST_SECONDS
}

fn is_quantity(crates: u32) -> bool
    ensures { result ≡ is_quantity crates }
{
    crates <= MOST_CRATES
}

// Whether a day may have so many stops. (The range of a stop's number, of another thing.)
pub(crate) fn is_count(stops: u32) -> bool
    ensures { result ≡ is_count stops }
{
    (1..=MOST_STOPS).contains(&stops)
}

fn sound_stop(s: Stop) -> bool
    ensures { result ≡ sound_stop s }
{
    is_time(s.opens)
        && is_time(s.closes)
        && is_time(s.serve)
        && is_time(s.serve_deviation)
        && is_quantity(s.deliver)
        && is_quantity(s.deliver_deviation)
        && is_quantity(s.pickup)
        && is_quantity(s.pickup_deviation)
        && s.rest <= 1
}

fn sound_leg(l: Leg) -> bool
    ensures { result ≡ sound_leg l }
{
    is_time(l.travel) && is_time(l.travel_deviation)
}

// Whether every number of the line is within its bounds.
pub fn is_within(line: Line) -> bool
    ensures { result ≡ within line }
{
    match line {
        Line::Day | Line::End => true,
        Line::Depot(opens, closes) => is_time(opens) && is_time(closes),
        Line::Capacity(crates) => is_quantity(crates),
        Line::Drive(seconds) => is_time(seconds),
        Line::TravelBudget(most) | Line::ServeBudget(most) | Line::DemandBudget(most) => most
            <= MOST_BUDGET,
        Line::Stops(count) => is_count(count),
        Line::Stop(_, stop) => sound_stop(stop),
        Line::Leg(i, j, leg) => i <= MOST_STOPS && j <= MOST_STOPS && sound_leg(leg),
    }
}

// Whether the line's window, where it has one, opens no later than it closes.
pub fn is_ordered(line: Line) -> bool
    ensures { result ≡ ordered line }
{
    match line {
        Line::Depot(opens, closes) => opens <= closes,
        Line::Stop(_, stop) => stop.opens <= stop.closes,
        _ => true,
    }
}

// The stop or the leg that the line is about; none where it is about neither.
pub fn subject_of(line: Line) -> Option<Subject>
    ensures { result ≡ subject line }
{
    match line {
        Line::Stop(number, _) => Some(Subject::Stop(number)),
        Line::Leg(i, j, _) => Some(Subject::Leg(i, j)),
        _ => None,
    }
}
