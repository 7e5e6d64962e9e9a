// The plan table: eight routes in which no stop stands twice, and how they change.

#![tactic(auto)]

pub mod route;
pub mod table;
