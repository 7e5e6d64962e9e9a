// The two tables of a day, which travel together.
ghost use Rattle.std.specs.Prelude.{◌≡◌, true, false, MatchOption};
ghost use Rattle.records.specs.Steps.{tables_fit};

use crate::{LEG_RECORDS, Leg, STOP_RECORDS, Stop};

// The stops, of which record 0 is the depot, and the legs: by the rules one list, with the leg from i to j at 41 × i + j.
#[derive(Clone, Copy, PartialEq, Eq, Debug)]
pub struct Tables<'a> {
    pub stops: &'a [Stop; STOP_RECORDS],
    pub legs: &'a [Leg; LEG_RECORDS],
}

impl<'a> Tables<'a> {
    // None where they do not have 41 and 1,681 records.
    pub fn new(stops: &'a [Stop], legs: &'a [Leg]) -> Option<Tables<'a>>
        ensures { MatchOption result (tables_fit stops.now legs.now ≡ false) (λ t. (tables_fit stops.now legs.now ≡ true) × (t.stops.now ≡ stops.now) × (t.legs.now ≡ legs.now)) }
    {
        let stops = stops.try_into().ok()?;
        let legs = legs.try_into().ok()?;
        Some(Tables { stops, legs })
    }
}
