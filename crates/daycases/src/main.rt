// Tries day files that are not as they should be, and some that are: prints a line for each.

#![tactic(auto)]

use anyhow::bail;
use dayfile::copier::copy_day;
use dayfile::reader::LONGEST_TEXT;
use dayfile::refusal::{CopyRefusal, ReadRefusal};
use records::{LEG_RECORDS, Leg, STOP_RECORDS, Stop};
use std::alloc::{AllocError, Global};
use std::fs;

// Stands in the file of edits for a line that is taken away.
const TAKEN_AWAY: &str = "-";

// Where the lines are printed, and the memory that each text is read into and written from.
#[derive(Drop)]
struct Trials<'a> {
    rt: &'a HostRuntime,
    stops: Vec<Stop>,
    legs: Vec<Leg>,
    buffer: Vec<u8>,
}

// The day with one line replaced, or taken away. Put together as it goes: a list of the lines, to be joined, would take up
// to 32 times the memory of a day of short lines.
fn edited(heap: Global, day: &str, number: usize, new: &str) -> Result<String, AllocError> {
    let mut text = String::new(heap);
    let mut first = true;
    for (k, line) in day.split('\n').enumerate() {
        let here = k == number;
        if here && new == TAKEN_AWAY {
            continue;
        }
        if !first {
            text.push_str("\n")?;
        }
        first = false;
        text.push_str(if here { new } else { line })?;
    }
    Ok(text)
}

// A text, and then one byte again and again, up to a length; a text that is longer stays whole.
fn filled_up(heap: Global, text: &[u8], byte: u8, length: usize) -> Result<Vec<u8>, AllocError> {
    let mut all = Vec::from_slice(heap, text)?;
    all.resize(length.max(text.len()), byte)?;
    Ok(all)
}

impl<'a> Trials<'a> {
    // With a stop table of so many records.
    fn new(rt: &'a HostRuntime, stop_records: usize) -> Result<Trials<'a>, AllocError> {
        let heap = rt.alloc();
        let stop = Stop {
            opens: 1,
            closes: 2,
            serve: 3,
            serve_deviation: 4,
            deliver: 5,
            deliver_deviation: 6,
            pickup: 7,
            pickup_deviation: 8,
            rest: 9,
        };
        let leg = Leg {
            travel: 1,
            travel_deviation: 2,
        };
        let stops = vec![in heap; stop; stop_records]?;
        let legs = vec![in heap; leg; LEG_RECORDS]?;
        let buffer = vec![in heap; 120u8; LONGEST_TEXT]?;
        Ok(Trials {
            rt,
            stops,
            legs,
            buffer,
        })
    }

    // Reads a text and writes it again.
    fn copy(&mut self, text: &[u8]) -> Result<usize, CopyRefusal> {
        copy_day(text, &mut self.stops, &mut self.legs, &mut self.buffer)
    }

    // Prints what comes of a text.
    fn show(&mut self, name: &str, text: &[u8]) -> anyhow::Result<()> {
        match self.copy(text) {
            Ok(length) => println!(self.rt; "{name}: (read {length})")?,
            Err(refusal) => println!(self.rt; "{name}: {refusal}")?,
        }
        Ok(())
    }

    fn try_edit(&mut self, day: &str, edit: &str) -> anyhow::Result<()> {
        let Some((number, new)) = edit.split_once(' ') else {
            bail!("an edit has a line's number and a text");
        };
        let number = number.parse::<usize>()?.saturating_sub(1);
        let text = edited(self.rt.alloc(), day, number, new)?;
        self.show(edit, text.as_bytes())
    }

    fn try_ends(&mut self, day: &[u8]) -> anyhow::Result<()> {
        let heap = self.rt.alloc();
        self.show("day A", day)?;
        self.show("nothing", b"")?;
        self.show("no line end", &day[..day.len().saturating_sub(1)])?;
        self.show("one byte more", &[day, b"x"].concat(heap)?)?;
        self.show("one line end more", &[day, b"\n"].concat(heap)?)?;
        self.show("twice", &[day, day].concat(heap)?)
    }

    fn try_lengths(&mut self, day: &[u8]) -> anyhow::Result<()> {
        let heap = self.rt.alloc();
        let full = filled_up(heap, day, b'x', LONGEST_TEXT)?;
        self.show("filled up to 65536 bytes", &full)?;
        let over = filled_up(heap, day, b'x', LONGEST_TEXT + 1)?;
        self.show("filled up to 65537 bytes", &over)?;
        let digits = filled_up(heap, b"", b'9', LONGEST_TEXT)?;
        self.show("digits up to 65536 bytes", &digits)
    }

    fn try_greatest(&mut self) -> anyhow::Result<()> {
        let text = fs::read(self.rt, "greatest.txt")?;
        self.show("greatest", &text)?;
        let cut = &text[..text.len().saturating_sub(2)];
        self.show("greatest without its end", cut)?;
        let full = filled_up(self.rt.alloc(), &text, b' ', LONGEST_TEXT)?;
        self.show("greatest filled up to 65536 bytes", &full)
    }

    fn try_rubbish(&mut self, day: &[u8]) -> anyhow::Result<()> {
        let rubbish = fs::read(self.rt, "rubbish.bin")?;
        self.show("rubbish", &rubbish)?;
        let after = [day, &rubbish].concat(self.rt.alloc())?;
        self.show("rubbish after day A", &after)
    }

    // Whether a beginning of a day is out of form on a line.
    fn breaks_off(&mut self, beginning: &[u8], line: u32) -> bool {
        match self.copy(beginning) {
            Err(CopyRefusal::Unread(ReadRefusal::Form(at))) => at == line,
            _ => false,
        }
    }

    // How many proper beginnings of the day are so on the line on which they break off. The line is carried on: to count
    // the lines of each beginning anew would take as many steps as the day has bytes, for each of them.
    fn count_beginnings(&mut self, day: &[u8]) -> usize {
        let mut count = 0usize;
        let mut line = 1u32;
        for (size, b) in day.iter().enumerate() {
            if self.breaks_off(&day[..size], line) {
                count = count.saturating_add(1);
            }
            if *b == b'\n' {
                line = line.saturating_add(1);
            }
        }
        count
    }
}

fn try_all(rt: &HostRuntime) -> anyhow::Result<()> {
    let day = fs::read_to_string(rt, "day.txt")?;
    let edits = fs::read_to_string(rt, "edits.txt")?;
    let mut trials = Trials::new(rt, STOP_RECORDS)?;
    for edit in edits.split('\n').filter(|edit| !edit.is_empty()) {
        trials.try_edit(&day, edit)?;
    }
    let bytes = day.as_bytes();
    trials.try_ends(bytes)?;
    trials.try_lengths(bytes)?;
    trials.try_greatest()?;
    trials.try_rubbish(bytes)?;
    let count = trials.count_beginnings(bytes);
    println!(rt; "beginnings of day A: {count} out of form")?;
    Trials::new(rt, STOP_RECORDS - 1)?.show("other tables", bytes)
}

fn main(rt: HostRuntime) -> anyhow::Result<()> {
    try_all(&rt)
}
