// What is asked of a route, and how it changes.
ghost use Rattle.std.specs.Prelude.{◌≡◌, ◌<◌, ◌≤◌, true, [], length};
ghost use Rattle.records.specs.Limits.{most_stops};
ghost use Rattle.records.specs.Steps.{is_stop, are_stops};
ghost use Rattle.table.specs.Routes.{holds, put_in, take_out};
ghost use Rattle.table.specs.Stored.{stops_of};

use super::{ROUTE_PLACES, Route};

// A route without stops. Written by hand, since none is derived on a struct with a ghost field.
impl Default for Route {
    ghost is_default = { λ r. stops_of r ≡ [] };

    fn default() -> Route {
        let stops = [0; ROUTE_PLACES];
        Route { stops, len: 0 }
    }
}

impl Route {
    // The stops, in the order in which they are visited.
    pub(crate) fn stops(&self) -> &[u32]
        ensures same { result.now ≡ stops_of self.now }
        ensures stops { are_stops result.now ≡ true }
        ensures short { length result.now ≤ most_stops }
    {
        &self.stops[..self.len]
    }

    // Whether a stop stands on the route.
    pub(crate) fn contains(&self, stop: u32) -> bool
        ensures { result ≡ holds stop (stops_of self.now) }
    {
        self.stops().contains(&stop)
    }

    // Puts a stop in at a place.
    pub(crate) fn insert(&mut self, place: usize, stop: u32)
        requires stop { is_stop stop ≡ true }
        requires room { length (stops_of self.old) < most_stops }
        requires within { place ≤ length (stops_of self.old) }
        ensures { stops_of self.new ≡ put_in stop place (stops_of self.old) }
    {
        let len = self.len;
        self.stops.copy_within(place..len, place + 1);
        self.stops[place] = stop;
        self.len = len + 1;
    }

    // Takes a stop out.
    pub(crate) fn remove(&mut self, stop: u32)
        ensures { stops_of self.new ≡ take_out stop (stops_of self.old) }
    {
        let mut stops = [0; ROUTE_PLACES];
        // counted by hand: to insert each stop that stays behind the last took half as long again
        let mut len = 0;
        for other in self.stops() {
            if *other != stop {
                stops[len] = *other;
                len += 1;
            }
        }
        *self = Route { stops, len };
    }
}
