// Planned travel.
ghost use Rattle.std.specs.Prelude.{◌≡◌, ◌*◌, ◌^◌, ◌<◌, if◌then◌else◌, Some, None, IfSome};
ghost use Rattle.records.specs.Limits.{stop_records};
ghost use Rattle.records.specs.Steps.{tables_fit};
ghost use Rattle.table.specs.Routes.{route_count};
ghost use Rattle.table.specs.Tables.{routes_in};
ghost use Rattle.table.specs.Travel.{planned_travel, added};

use super::Table;
use records::tables::Tables;
use records::{Leg, Stop};

impl Table {
    // The travel of all steps of all routes, without deviations. None where the tables do not have 41 and 1,681 records.
    pub fn planned_travel(&self, stops: &[Stop], legs: &[Leg]) -> Option<u64>
        ensures travel { result ≡ (if tables_fit stops.now legs.now then Some (planned_travel stops.now legs.now (routes_in self.now)) else None) }
        ensures small { IfSome result (λ travel. travel < route_count * (stop_records * 2 ^ 32)) }
    {
        let tables = Tables::new(stops, legs)?;
        Some(self.routes.iter().map(|route| route.travel(tables)).sum())
    }

    // What a change adds: planned travel after it less that before, with its sign. None as in planned travel.
    pub fn added_by(&self, changed: &Table, stops: &[Stop], legs: &[Leg]) -> Option<i64>
        ensures { result ≡ (if tables_fit stops.now legs.now then Some (added stops.now legs.now (routes_in self.now) (routes_in changed.now)) else None) }
    {
        let before = self.planned_travel(stops, legs)?;
        let after = changed.planned_travel(stops, legs)?;
        Some(after as i64 - before as i64)
    }
}
