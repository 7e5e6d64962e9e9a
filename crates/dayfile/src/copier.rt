// Reads a day file and writes it again.
ghost use Rattle.dayfile.specs.Answers.{Copied};

use crate::reader::read;
use crate::refusal::CopyRefusal;
use crate::writer::write;
use records::{Leg, Stop};

// Reads a text into the tables and writes the day to the front of the buffer, by the rules memory of the caller; the bytes
// are the same. Gives their number.
pub fn copy_day(
    text: &[u8],
    stops: &mut [Stop],
    legs: &mut [Leg],
    buffer: &mut [u8],
) -> Result<usize, CopyRefusal>
    ensures { Copied text.now stops.old legs.old buffer.old result stops.new legs.new buffer.new }
{
    let head = read(text, stops, legs)?;
    Ok(write(head, stops, legs, buffer)?)
}
