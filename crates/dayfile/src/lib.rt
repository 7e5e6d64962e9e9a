// Day files: a day's text is read exactly when it is the text of a valid day, and written back byte by byte.

#![tactic(auto)]

pub mod bounds;
pub mod copier;
mod day;
pub mod expectation;
pub mod judge;
pub mod reader;
pub mod refusal;
mod store;
pub mod writer;
