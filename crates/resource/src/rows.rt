// Rows of words: joined by the greater word at each place, judged by the ceiling.
ghost use Rattle.std.specs.Prelude.{◌≡◌, ◌&&◌, length, ◌==◌};
ghost use Rattle.resource.specs.Answers.{row_answer, written};
ghost use Rattle.resource.specs.Words.{greater, sound};

use crate::questions::ask_row;
use crate::refusal::Refusal;

// The greatest word of a row that is not broken.
pub const CEILING: u32 = 1_000_000_000;

// The word that fills a broken row, one that no step admits: a word as any other by the rules, which join it.
pub const BROKEN: u32 = 4_294_967_295;

// Writes the words of a row into another of its width.
pub fn write_words(row: &[u32], into: &mut [u32]) -> Result<(), Refusal>
    ensures answer { result ≡ row_answer (length row.now) (length into.old == length row.now) tt }
    ensures row { into.new ≡ written result row.now into.old }
{
    ask_row(row.len(), into.len())?;
    into.copy_from_slice(row);
    Ok(())
}

// Joins two rows of the width: the greater word at each place.
pub fn join_words(width: usize, from: &[u32], onto: &mut [u32]) -> Result<(), Refusal>
    ensures answer { result ≡ row_answer width (length from.now == width && length onto.old == width) tt }
    ensures row { onto.new ≡ written result (greater onto.old from.now) onto.old }
{
    ask_row(width, from.len())?;
    ask_row(width, onto.len())?;
    raise(from, onto);
    Ok(())
}

// Writes the greater word at each place of two rows of one length.
fn raise(from: &[u32], onto: &mut [u32])
    requires { length from.now ≡ length onto.old }
    ensures { onto.new ≡ greater onto.old from.now }
{
    // `onto[i]` and no `zip`: of what an adapter of `iter_mut` writes nothing is known afterwards
    for (i, word) in from.iter().enumerate() {
        onto[i] = onto[i].max(*word);
    }
}

// The verdict on a row of the width: yes where no word is above the ceiling.
pub fn judge_words(width: usize, row: &[u32]) -> Result<bool, Refusal>
    ensures { result ≡ row_answer width (length row.now == width) (sound row.now) }
{
    ask_row(width, row.len())?;
    Ok(is_sound(row))
}

// No word is above the ceiling.
fn is_sound(row: &[u32]) -> bool
    ensures { result ≡ sound row.now }
{
    row.iter().all(|word| *word <= CEILING)
}
