// What reading and writing refuse, and the number of each refusal.
ghost use Rattle.std.specs.Prelude.{◌≡◌, Some};
ghost use Rattle.dayfile.specs.Answers.{read_number, read_line, write_number, unread_text, unwritten_text, refusal_text};
ghost use Rattle.dayfile.specs.declared.refusal.CopyRefusal.TheVariants.{Unread, Unwritten};

use std::error::Error;
use std::fmt;

// Why a text is not read. Where a line is to blame, it is named, counted from 1.
#[derive(Clone, Copy, PartialEq, Eq, Debug)]
pub enum ReadRefusal {
    // the text has more than 65,536 bytes
    TooLong,
    // the tables do not have 41 and 1,681 records
    OtherTables,
    // the line is not of the form due there
    Form(u32),
    // a number of the line is out of bounds
    Bounds(u32),
    // the stop or the leg is not the one next in turn, or a window closes before it opens
    Turn(u32),
    // the text goes on after its last line
    Trailing(u32),
}

impl ReadRefusal {
    // The number that the rules give it. A variant that names a line can have no discriminant, so this is a `match`.
    pub fn number(self) -> u32
        ensures { result ≡ read_number self }
    {
        match self {
            ReadRefusal::TooLong => 1,
            ReadRefusal::OtherTables => 2,
            ReadRefusal::Form(_) => 3,
            ReadRefusal::Bounds(_) => 4,
            ReadRefusal::Turn(_) => 5,
            ReadRefusal::Trailing(_) => 6,
        }
    }

    // The line to blame. Where the text was not looked at it is 0 and not `None`: the rules give that number.
    pub fn line(self) -> u32
        ensures { result ≡ read_line self }
    {
        match self {
            ReadRefusal::TooLong | ReadRefusal::OtherTables => 0,
            ReadRefusal::Form(line)
            | ReadRefusal::Bounds(line)
            | ReadRefusal::Turn(line)
            | ReadRefusal::Trailing(line) => line,
        }
    }
}

impl fmt::Display for ReadRefusal {
    ghost output = { λ r. Some (unread_text r) };

    fn fmt<W: fmt::Write>(&self, f: &mut fmt::Formatter<W>) -> fmt::Result {
        let number = self.number();
        let line = self.line();
        write!(f, "(unread {number} {line})")
    }
}

impl Error for ReadRefusal {}

// Why a day is not written.
#[derive(Clone, Copy, PartialEq, Eq, Debug)]
pub enum WriteRefusal {
    // the tables do not have 41 and 1,681 records
    OtherTables = 2,
    // a figure is out of bounds, or a window closes before it opens
    Figures = 7,
    // the buffer has less than 65,536 bytes
    ShortBuffer = 8,
}

impl WriteRefusal {
    // The number that the rules give it.
    pub fn number(self) -> u32
        ensures { result ≡ write_number self }
    {
        self as u32
    }
}

impl fmt::Display for WriteRefusal {
    ghost output = { λ r. Some (unwritten_text r) };

    fn fmt<W: fmt::Write>(&self, f: &mut fmt::Formatter<W>) -> fmt::Result {
        let number = self.number();
        write!(f, "(unwritten {number})")
    }
}

impl Error for WriteRefusal {}

// Why a day is not read and written again.
#[derive(Clone, Copy, PartialEq, Eq, Debug)]
pub enum CopyRefusal {
    Unread(ReadRefusal),
    Unwritten(WriteRefusal),
}

impl From<ReadRefusal> for CopyRefusal {
    ghost from_gives = { λ r e. e ≡ Unread r };

    fn from(refusal: ReadRefusal) -> CopyRefusal {
        CopyRefusal::Unread(refusal)
    }
}

impl From<WriteRefusal> for CopyRefusal {
    ghost from_gives = { λ r e. e ≡ Unwritten r };

    fn from(refusal: WriteRefusal) -> CopyRefusal {
        CopyRefusal::Unwritten(refusal)
    }
}

impl fmt::Display for CopyRefusal {
    ghost output = { λ r. Some (refusal_text r) };

    fn fmt<W: fmt::Write>(&self, f: &mut fmt::Formatter<W>) -> fmt::Result {
        match self {
            CopyRefusal::Unread(refusal) => write!(f, "{refusal}"),
            CopyRefusal::Unwritten(refusal) => write!(f, "{refusal}"),
        }
    }
}

impl Error for CopyRefusal {}
