// The routes of a plan.
ghost use Rattle.std.specs.Prelude.{◌≡◌};
ghost use Rattle.table.specs.Routes.{no_stops};
ghost use Rattle.table.specs.Standing.{IsPlan};
ghost use Rattle.table.specs.Stored.{routes_of};

use crate::route::Route;

mod changes;
mod travel;

// How many routes a plan has.
pub const ROUTES: usize = 8;

// A plan's routes: no stop stands on them twice, and they have stops alone on them.
#[derive(Clone, Copy, PartialEq, Eq, Debug)]
pub struct Table {
    routes: [Route; ROUTES],
    ghost plan: { IsPlan (routes_of routes) },
}

// The routes of a new plan: all empty. Written by hand, since none is derived on a struct with a ghost field.
impl Default for Table {
    ghost is_default = { λ t. routes_of t.routes ≡ no_stops };

    fn default() -> Table {
        Table {
            routes: [Route::default(); ROUTES],
        }
    }
}

// A place of a route: routes are numbered from 1, and places are counted from 0.
#[derive(Clone, Copy, PartialEq, Eq, Debug)]
pub struct Spot {
    pub route: u32,
    pub place: u32,
}
