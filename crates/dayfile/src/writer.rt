// Writes a day file.
ghost use Rattle.std.specs.Prelude.{◌≡◌, ◌≤◌, ◌++◌, length, drop};
ghost use Rattle.dayfile.specs.Days.{Valid, day_text};
ghost use Rattle.dayfile.specs.Storing.{day_of};
ghost use Rattle.dayfile.specs.Lent.{day_in};
ghost use Rattle.dayfile.specs.Answers.{Written};

use crate::day::Day;
use crate::reader::LONGEST_TEXT;
use crate::refusal::WriteRefusal;
use lines::write::write_line;
use records::tables::Tables;
use records::{Head, Leg, Stop};

// Writes the text of a valid day to the front of the buffer, and gives its length.
fn write_lines(day: Day, buffer: &mut [u8]) -> usize
    requires { (Valid (day_in day)) × (65536 ≤ length buffer.old) }
    ensures size { result ≡ length (day_text (day_in day.entry)) }
    ensures bytes { buffer.new ≡ day_text (day_in day.entry) ++ drop (length (day_text (day_in day.entry))) buffer.old }
{
    // where the next line begins: a `fold` would carry it and the buffer, and is no plainer
    let mut at = 0;
    for line in day.lines() {
        at += write_line(line, &mut buffer[at..]).unwrap();
    }
    at
}

// Writes the day's text to the front of the buffer, by the rules memory of the caller, and gives its length. The tables
// have 41 and 1,681 records, the buffer 65,536 bytes or more. A refusal writes nothing.
pub fn write(
    head: Head,
    stops: &[Stop],
    legs: &[Leg],
    buffer: &mut [u8],
) -> Result<usize, WriteRefusal>
    ensures { Written (day_of head stops.now legs.now) buffer.old result buffer.new }
{
    let tables = Tables::new(stops, legs).ok_or(WriteRefusal::OtherTables)?;
    let day = Day { head, tables };
    if !day.is_valid() {
        return Err(WriteRefusal::Figures);
    }
    if buffer.len() < LONGEST_TEXT {
        return Err(WriteRefusal::ShortBuffer);
    }
    Ok(write_lines(day, buffer))
}
