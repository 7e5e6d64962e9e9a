// One route of a plan: the numbers of its stops, in the order in which they are visited.
ghost use Rattle.table.specs.Laid.{IsRoute};

use records::limits::MOST_STOPS;

mod changes;
mod travel;

// How many stops a route has room for: all that a day may have.
pub const ROUTE_PLACES: usize = MOST_STOPS as usize;

// Contracts see the list of the stops, by `stops_of`. It lies in an array, which takes no heap and whose places behind it
// hold 0, and not in an `ArrayVec`, which is not `Copy`: tables are changed by value. No `impl Model`: a struct that holds
// one is not copied where it is passed by value and used again, and who calls would lose the table.
#[derive(Clone, Copy, PartialEq, Eq, Debug)]
pub struct Route {
    stops: [u32; ROUTE_PLACES],
    len: usize,
    ghost laid: { IsRoute stops len },
}
