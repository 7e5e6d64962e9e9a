// The limits that a resource's calls ask about.
use records::STOP_RECORDS;

// The widest row that a resource may have.
pub const WIDEST: usize = 4096;

// The width that means too wide: a number by the rules, and no `None`.
pub const TOO_WIDE: usize = WIDEST + 1;

// The most steps of a route: one for each stop that a day may have, and one for the depot.
pub const MOST_STEPS: usize = STOP_RECORDS;

// How many bytes a mark list has at least: one for each step.
pub const MARK_BYTES: usize = MOST_STEPS;

// How many rows of the width a work slice has at least.
pub const WORK_ROWS: usize = 4;
