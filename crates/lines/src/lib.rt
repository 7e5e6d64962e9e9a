// One line of a day file: its forms, its text, and how it is read and written.

#![tactic(auto)]

pub mod line;
mod numeral;
mod scan;
pub mod write;
