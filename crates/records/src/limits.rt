// The limits that the rules fix for a day.

// The most stops that a day has, and so the last place that a leg leads from or to.
pub const MOST_STOPS: u32 = 40;

// The latest time, and the longest.
pub const MOST_SECONDS: u32 = 100_000;

// The most crates that one number tells of.
pub const MOST_CRATES: u32 = 10_000;

// The largest budget.
pub const MOST_BUDGET: u32 = 8;
