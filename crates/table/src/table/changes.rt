// What is asked of a plan's routes, and how they change.
ghost use Rattle.std.specs.Prelude.{◌≡◌, ◌≤◌, true, length, if◌then◌else◌, position, Some, None, IfSome};
ghost use Rattle.std.specs.Option.{option_map};
ghost use Rattle.records.specs.Limits.{most_stops};
ghost use Rattle.records.specs.Steps.{are_stops};
ghost use Rattle.table.specs.Routes.{no_stops, holds, route_of, route_with, placed, dropped};
ghost use Rattle.table.specs.Standing.{is_route, fits_in};
ghost use Rattle.table.specs.Tables.{routes_in};

use super::{ROUTES, Spot, Table};
use records::route::is_stop;

// Whether a number is that of a route. (A range of its own, beside those of stops and of counts.)
fn is_route(number: u32) -> bool
    ensures { result ≡ is_route number }
{
    (1..=ROUTES as u32).contains(&number)
}

impl Table {
    // The routes of a new plan: all empty.
    pub fn new() -> Table
        ensures { routes_in result ≡ no_stops }
    {
        Table::default()
    }

    // The stops of a route, or none where no route has the number.
    pub fn route(&self, number: u32) -> Option<&[u32]>
        ensures value { option_map (λ x. x.now) result ≡ (if is_route number then Some (route_of (routes_in self.now) number) else None) }
        ensures stops { IfSome result (λ x. are_stops x.now ≡ true) }
        ensures short { IfSome result (λ x. length x.now ≤ most_stops) }
    {
        if is_route(number) {
            Some(self.routes[number as usize - 1].stops())
        } else {
            None
        }
    }

    // The place in the array of the route on which a stop stands.
    fn place_of(&self, stop: u32) -> Option<usize>
        ensures { result ≡ position (holds stop) (routes_in self.now) }
    {
        self.routes.iter().position(|route| route.contains(stop))
    }

    // The number of the route on which a stop stands.
    pub fn route_with(&self, stop: u32) -> Option<u32>
        ensures { result ≡ route_with stop (routes_in self.now) }
    {
        Some(self.place_of(stop)? as u32 + 1)
    }

    // Whether a stop is free and a spot is one where it can be put in: before a stop of a route, or behind the last.
    fn fits_in(&self, stop: u32, spot: Spot) -> bool
        ensures { result ≡ fits_in stop spot (routes_in self.now) }
    {
        is_stop(stop)
            && self.place_of(stop).is_none()
            && self
                .route(spot.route)
                .is_some_and(|stops| spot.place as usize <= stops.len())
    }

    // The table with a stop put in at a spot. None where the number is not that of a stop, where the stop stands on a
    // route already, or where no route has the spot.
    pub fn placed(self, stop: u32, spot: Spot) -> Option<Table>
        ensures { option_map routes_in result ≡ (if fits_in stop spot (routes_in self) then Some (placed stop spot (routes_in self)) else None) }
    {
        if !self.fits_in(stop, spot) {
            return None;
        }
        let at = spot.route as usize - 1;
        let mut routes = self.routes;
        routes[at].insert(spot.place as usize, stop);
        Some(Table { routes })
    }

    // The table with a stop taken off its route. The same routes where none has it.
    pub fn dropped(self, stop: u32) -> Table
        ensures { routes_in result ≡ dropped stop (routes_in self) }
    {
        let Some(at) = self.place_of(stop) else {
            return self;
        };
        let mut routes = self.routes;
        routes[at].remove(stop);
        Table { routes }
    }
}
