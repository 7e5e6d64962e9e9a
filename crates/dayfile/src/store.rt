// The figures of a line, put into the day's head and tables.
ghost use Rattle.std.specs.Prelude.{◌≡◌};
ghost use Rattle.dayfile.specs.Storing.{day_of, put, Storable};

use lines::line::Line;
use records::route::window_only;
use records::{Head, LEG_RECORDS, Leg, STOP_RECORDS, Stop};

// The tables stay two parameters here and in the reader: of a struct of two `&mut` each contract would also have to say
// that it still lends the same two.
pub(crate) fn store(
    line: Line,
    head: &mut Head,
    stops: &mut [Stop; STOP_RECORDS],
    legs: &mut [Leg; LEG_RECORDS],
)
    requires { Storable line }
    ensures { day_of head.new stops.new legs.new ≡ put line (day_of head.old stops.old legs.old) }
{
    match line {
        Line::Day | Line::End => {}
        Line::Depot(opens, closes) => stops[0] = window_only(opens, closes),
        Line::Capacity(n) => head.capacity = n,
        Line::Drive(n) => head.drive = n,
        Line::TravelBudget(n) => head.travel_budget = n,
        Line::ServeBudget(n) => head.serve_budget = n,
        Line::DemandBudget(n) => head.demand_budget = n,
        Line::Stops(n) => head.stops = n,
        Line::Stop(number, stop) => stops[number as usize] = stop,
        Line::Leg(i, j, leg) => legs[STOP_RECORDS * i as usize + j as usize] = leg,
    }
}
