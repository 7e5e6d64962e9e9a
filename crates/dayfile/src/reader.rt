// Reads a day file.
ghost use Rattle.std.specs.Prelude.{◌≡◌, ◌≤◌, length, replicate};
ghost use Rattle.records.specs.Records.{no_stop, no_leg};
ghost use Rattle.dayfile.specs.Answers.{refused_line, LinesRead, Answered, Read};

use crate::expectation::{Expectation, Question};
use crate::judge::judge;
use crate::refusal::ReadRefusal;
use crate::store::store;
use lines::line::parse;
use records::{Head, LEG_RECORDS, Leg, STOP_RECORDS, Stop};

// The longest text that is read, in bytes.
pub const LONGEST_TEXT: usize = 65_536;

// No `From`, since the question alone does not say on which line.
fn refused(question: Question, line: u32) -> ReadRefusal
    ensures { result ≡ refused_line question line }
{
    match question {
        Question::Form => ReadRefusal::Form(line),
        Question::Bounds => ReadRefusal::Bounds(line),
        Question::Turn => ReadRefusal::Turn(line),
    }
}

// Reads the lines of a text into tables that are all 0. Where it refuses, what the tables hold is left open.
fn read_lines(
    text: &[u8],
    stops: &mut [Stop; STOP_RECORDS],
    legs: &mut [Leg; LEG_RECORDS],
) -> Result<Head, ReadRefusal>
    requires { (length text.now ≤ 65536) × ((stops.old ≡ replicate 41 no_stop) × (legs.old ≡ replicate 1681 no_leg)) }
    ensures { LinesRead text.now result stops.new legs.new }
{
    let mut head = Head::default();
    let mut due = Expectation::Day;
    let mut rest = text;
    // counted by hand: a line is known only when it is parsed and judged, and either may refuse it by its number
    let mut number = 1;
    while due != Expectation::Nothing {
        let (line, after) = parse(rest).ok_or(ReadRefusal::Form(number))?;
        due = judge(due, line).map_err(|question| refused(question, number))?;
        store(line, &mut head, stops, legs);
        rest = after;
        number += 1;
    }
    if rest.is_empty() {
        Ok(head)
    } else {
        Err(ReadRefusal::Trailing(number))
    }
}

fn clear_tables(stops: &mut [Stop; STOP_RECORDS], legs: &mut [Leg; LEG_RECORDS])
    ensures stops { stops.new ≡ replicate 41 no_stop }
    ensures legs { legs.new ≡ replicate 1681 no_leg }
{
    stops.fill(Stop::default());
    legs.fill(Leg::default());
}

// Reads a text of a length that is read.
fn read_text(
    text: &[u8],
    stops: &mut [Stop; STOP_RECORDS],
    legs: &mut [Leg; LEG_RECORDS],
) -> Result<Head, ReadRefusal>
    requires { length text.now ≤ 65536 }
    ensures { Answered text.now result stops.new legs.new }
{
    clear_tables(stops, legs);
    let answer = read_lines(text, stops, legs);
    if answer.is_err() {
        clear_tables(stops, legs);
    }
    answer
}

// Reads a day file: its head is returned, and its stops and legs are put into the tables, with 0 in every record and
// figure that it does not have. The tables have 41 and 1,681 records.
#[tactic(auto, using(crate::proofs::Sizes::day_short))]
pub fn read(text: &[u8], stops: &mut [Stop], legs: &mut [Leg]) -> Result<Head, ReadRefusal>
    ensures { Read text.now stops.old legs.old result stops.new legs.new }
{
    if text.len() > LONGEST_TEXT {
        return Err(ReadRefusal::TooLong);
    }
    let stops = stops.as_mut_array().ok_or(ReadRefusal::OtherTables)?;
    let legs = legs.as_mut_array().ok_or(ReadRefusal::OtherTables)?;
    read_text(text, stops, legs)
}
