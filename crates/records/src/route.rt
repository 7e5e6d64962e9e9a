// The steps of a route, from the tables.
ghost use Rattle.std.specs.Prelude.{◌≡◌, ◌+◌, ◌≤◌, true, ◌++◌, length, drop, if◌then◌else◌, Some, None};
ghost use Rattle.records.specs.Records.{window_only};
ghost use Rattle.records.specs.Steps.{step_count, steps_from, steps_of, in_table, steps_fit, is_stop};

use crate::limits::MOST_STOPS;
use crate::step::Step;
use crate::tables::Tables;
use crate::{Leg, STOP_RECORDS, Stop};

// A record that has a window and nothing else.
pub fn window_only(opens: u32, closes: u32) -> Stop
    ensures { result ≡ window_only opens closes }
{
    Stop {
        opens,
        closes,
        ..Stop::default()
    }
}

// Whether a number is that of a stop, and not of the depot. (Routes and counts of stops have ranges of their own.)
pub fn is_stop(number: u32) -> bool
    ensures { result ≡ is_stop number }
{
    (1..=MOST_STOPS).contains(&number)
}

fn is_in_table(route: &[u32]) -> bool
    ensures { result ≡ in_table route.now }
{
    route.iter().all(|k| *k <= MOST_STOPS)
}

// How many steps a route has.
pub fn step_count(route: &[u32]) -> usize
    ensures { result ≡ step_count route.now }
{
    if route.is_empty() { 0 } else { route.len() + 1 }
}

// Writes the steps of a route that has stops to the front of `out`.
fn fill_steps(route: &[u32], tables: Tables, out: &mut [Step])
    requires inside { in_table route.now ≡ true }
    requires room { length route.now + 1 ≤ length out.old }
    ensures { out.new ≡ steps_from tables.entry.stops.now tables.entry.legs.now 0 route.now ++ drop (length route.now + 1) out.old }
{
    // each leg starts where the one before it ends, so the place is carried on
    let mut from = 0;
    // `out[at]` and no `zip`: of what an adapter of `iter_mut` writes nothing is known afterwards
    for (at, k) in route.iter().enumerate() {
        let k = *k as usize;
        let leg = tables.legs[STOP_RECORDS * from + k];
        let stop = tables.stops[k];
        out[at] = Step { leg, stop };
        from = k;
    }
    let leg = tables.legs[STOP_RECORDS * from];
    let depot = tables.stops[0];
    let stop = window_only(depot.opens, depot.closes);
    out[route.len()] = Step { leg, stop };
}

// Writes the steps of a route to the front of `out` and gives their number: one more than it has stops, or 0 where it has
// none. Writes nothing and gives none where the tables do not have 41 and 1,681 records, where a stop is not in them, or
// where there is too little room.
pub fn write_steps(route: &[u32], stops: &[Stop], legs: &[Leg], out: &mut [Step]) -> Option<usize>
    ensures count { result ≡ (if steps_fit stops.now legs.now route.now (length out.old) then Some (step_count route.now) else None) }
    ensures steps { out.new ≡ (if steps_fit stops.now legs.now route.now (length out.old) then steps_of stops.now legs.now route.now ++ drop (step_count route.now) out.old else out.old) }
{
    let tables = Tables::new(stops, legs)?;
    if !is_in_table(route) {
        return None;
    }
    let count = step_count(route);
    if out.len() < count {
        return None;
    }
    if count > 0 {
        fill_steps(route, tables, out);
    }
    Some(count)
}
