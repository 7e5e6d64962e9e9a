// The travel of a route.
ghost use Rattle.std.specs.Prelude.{◌≡◌, ◌*◌, ◌^◌, ◌<◌, ◌≤◌};
ghost use Rattle.records.specs.Limits.{most_stops, stop_records};
ghost use Rattle.records.specs.Steps.{leg_of, steps_of};
ghost use Rattle.table.specs.Stored.{stops_of};
ghost use Rattle.table.specs.Travel.{travel_of};

use super::Route;
use records::STOP_RECORDS;
use records::tables::Tables;

// The planned driving time from one place to another.
fn leg_travel(tables: Tables, from: u32, to: u32) -> u64
    requires near { from ≤ most_stops }
    requires far { to ≤ most_stops }
    ensures travel { result ≡ (leg_of tables.entry.legs.now from to).travel }
    ensures small { result < 2 ^ 32 }
{
    u64::from(tables.legs[STOP_RECORDS * from as usize + to as usize].travel)
}

impl Route {
    // The travel of all steps.
    pub(crate) fn travel(&self, tables: Tables) -> u64
        ensures travel { result ≡ travel_of (steps_of tables.entry.stops.now tables.entry.legs.now (stops_of self.now)) }
        ensures small { result < stop_records * 2 ^ 32 }
    {
        let stops = self.stops();
        if stops.is_empty() {
            return 0;
        }
        // each leg starts where the one before it ends: a `fold` would carry both numbers, and is no plainer
        let mut travel = 0;
        let mut from = 0;
        for to in stops {
            travel += leg_travel(tables, from, *to);
            from = *to;
        }
        travel + leg_travel(tables, from, 0)
    }
}
