// One step of a route: the leg that leads to its stop, and the stop's record. The last step leads to the depot.
use crate::{Leg, Stop};

#[derive(Clone, Copy, PartialEq, Eq, Debug, Default)]
pub struct Step {
    pub leg: Leg,
    pub stop: Stop,
}
