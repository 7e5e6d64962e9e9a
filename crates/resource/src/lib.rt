// What a resource is: a van's hour, load or driving time, or any other that keeps the laws, and piles of budget layers
// over one. Whoever builds on a resource sees this interface alone.

#![tactic(auto)]

pub mod days;
pub mod figures;
pub mod interface;
pub mod limits;
pub mod questions;
pub mod recursion;
pub mod refusal;
pub mod rows;
pub mod unlayered;
