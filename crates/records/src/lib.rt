// The records that a day is kept in: stops, legs and the day's head. Times are seconds, quantities are crates.

#![tactic(auto)]

use crate::limits::MOST_STOPS;

pub mod limits;
pub mod route;
pub mod step;
pub mod tables;

// How many records the stop table has: the depot and at most 40 stops.
pub const STOP_RECORDS: usize = MOST_STOPS as usize + 1;

// How many records the leg table has: one for each ordered pair of places.
pub const LEG_RECORDS: usize = STOP_RECORDS * STOP_RECORDS;

// A stop, or the depot where it is record 0 of the stop table. Its figures stand one by one, as the rules list them: no
// pair of a figure and its deviation, and none of opening and closing.
#[derive(Clone, Copy, PartialEq, Eq, Debug, Default)]
pub struct Stop {
    // the window in which a van may arrive
    pub opens: u32,
    pub closes: u32,
    // the time that the stop takes, and by how much it may take longer
    pub serve: u32,
    pub serve_deviation: u32,
    // what is delivered, and by how much it may grow
    pub deliver: u32,
    pub deliver_deviation: u32,
    // what is picked up, and by how much it may grow
    pub pickup: u32,
    pub pickup_deviation: u32,
    // whether the driver rests here: 0 is no, all else is yes; by the rules it is a figure as the others
    pub rest: u32,
}

// The way from one place to another: its planned driving time, and by how much it may run late, one by one as the rules
// list them.
#[derive(Clone, Copy, PartialEq, Eq, Debug, Default)]
pub struct Leg {
    pub travel: u32,
    pub travel_deviation: u32,
}

// What a day says once, for all its routes.
#[derive(Clone, Copy, PartialEq, Eq, Debug, Default)]
pub struct Head {
    // the most that a van carries
    pub capacity: u32,
    // the longest time that a van is driven without a rest
    pub drive: u32,
    // how many legs may run late, stops take longer and deliveries grow on one route
    pub travel_budget: u32,
    pub serve_budget: u32,
    pub demand_budget: u32,
    // how many stops the day has
    pub stops: u32,
}
