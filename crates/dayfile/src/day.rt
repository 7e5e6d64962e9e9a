// A day that is lent for reading, and its lines.
ghost use Rattle.std.specs.Prelude.{◌≡◌, ◌↔◌, true, IsTrue};
ghost use Rattle.std.specs.Iterator.{YieldsFirst, item_count};
ghost use Rattle.dayfile.specs.Days.{Valid};
ghost use Rattle.dayfile.specs.Walking.{line_due, Placed};
ghost use Rattle.dayfile.specs.Lent.{day_in, lines_left, CanStep, at_first};

use crate::bounds::{is_count, is_ordered, is_within};
use crate::expectation::Expectation;
use crate::judge::after;
use lines::line::Line;
use records::tables::Tables;
use records::{Head, STOP_RECORDS};

#[derive(Clone, Copy)]
pub(crate) struct Day<'a> {
    pub head: Head,
    pub tables: Tables<'a>,
}

// The lines of a day from the one that is due.
#[derive(Clone, Copy)]
pub(crate) struct Lines<'a> {
    day: Day<'a>,
    due: Expectation,
}

impl<'a> Day<'a> {
    // The day's line at a place of its text.
    fn line_at(self, due: Expectation) -> Line
        requires { Placed due }
        ensures { result ≡ line_due (day_in self.entry) due }
    {
        match due {
            Expectation::Day => Line::Day,
            Expectation::Depot => {
                let depot = self.tables.stops[0];
                Line::Depot(depot.opens, depot.closes)
            }
            Expectation::Capacity => Line::Capacity(self.head.capacity),
            Expectation::Drive => Line::Drive(self.head.drive),
            Expectation::TravelBudget => Line::TravelBudget(self.head.travel_budget),
            Expectation::ServeBudget => Line::ServeBudget(self.head.serve_budget),
            Expectation::DemandBudget => Line::DemandBudget(self.head.demand_budget),
            Expectation::Stops => Line::Stops(self.head.stops),
            Expectation::Stop(k, _) => Line::Stop(k, self.tables.stops[k as usize]),
            Expectation::Leg(i, j, _) => Line::Leg(
                i,
                j,
                self.tables.legs[STOP_RECORDS * i as usize + j as usize],
            ),
            Expectation::End | Expectation::Nothing => Line::End,
        }
    }

    pub(crate) fn lines(self) -> Lines<'a>
        ensures { result ≡ at_first self.entry }
    {
        Lines {
            day: self,
            due: Expectation::Day,
        }
    }

    // Whether the figures that the day's text has are within their bounds, and no window closes before it opens. How many
    // stops there are is asked first, since it says which records the lines are made of.
    pub(crate) fn is_valid(self) -> bool
        ensures { IsTrue result ↔ Valid (day_in self.entry) }
    {
        is_count(self.head.stops) && self.lines().all(|line| is_within(line) && is_ordered(line))
    }
}

impl Iterator for Lines<'_> {
    type Item = Line;

    ghost can_next = { CanStep };

    ghost next_gives = { YieldsFirst lines_left };

    ghost remaining = { item_count lines_left };

    #[tactic(auto, using(crate::proofs::Writing::walking))]
    fn next(&mut self) -> Option<Line> {
        let line = self.day.line_at(self.due);
        // where nothing is due, no line is of the form due
        self.due = after(self.due, line)?;
        Some(line)
    }
}
