// The text of a line, written into memory of the caller.
ghost use Rattle.std.specs.Prelude.{◌≡◌, ◌-◌, ◌≤◌, ◌++◌, length, drop, if◌then◌else◌, Some, None, nat_le};
ghost use Rattle.lines.specs.Scan.{holes};
ghost use Rattle.lines.specs.Forms.{form_of, template, filled, line_text};

use crate::line::{Form, Line};
use crate::scan::HOLE;
use arrayvec::ArrayVec;
use itoa::Buffer;

// No line has more bytes than that of a stop whose ten numbers have ten digits each.
const LONGEST_LINE: usize = 160;

impl Form {
    // The form's bytes with the numbers in their places. (Not by `Display`: that does not say when writing succeeds.)
    fn filled(self, numbers: &[u32]) -> ArrayVec<u8, LONGEST_LINE>
        requires { length numbers.now ≡ holes (template self) }
        ensures { result.items ≡ filled (template self) 0 numbers.now }
    {
        let mut text = ArrayVec::new();
        let mut left = numbers.iter();
        let template = self.template();
        for c in template {
            if *c == HOLE {
                let n = left.next().unwrap();
                text.try_extend_from_slice(Buffer::new().format(*n).as_bytes())
                    .unwrap();
            } else {
                text.push(*c);
            }
        }
        text
    }
}

impl Line {
    // The line with its numbers left out: a part of it, and so no `From`.
    pub fn form(self) -> Form
        ensures { result ≡ form_of self }
    {
        match self {
            Line::Day => Form::Day,
            Line::Depot(_, _) => Form::Depot,
            Line::Capacity(_) => Form::Capacity,
            Line::Drive(_) => Form::Drive,
            Line::TravelBudget(_) => Form::TravelBudget,
            Line::ServeBudget(_) => Form::ServeBudget,
            Line::DemandBudget(_) => Form::DemandBudget,
            Line::Stops(_) => Form::Stops,
            Line::Stop(_, _) => Form::Stop,
            Line::Leg(_, _, _) => Form::Leg,
            Line::End => Form::End,
        }
    }

    fn text(self) -> ArrayVec<u8, LONGEST_LINE>
        ensures { result.items ≡ line_text self }
    {
        let form = self.form();
        match self {
            Line::Day | Line::End => form.filled(&[]),
            Line::Depot(opens, closes) => form.filled(&[opens, closes]),
            Line::Capacity(n)
            | Line::Drive(n)
            | Line::TravelBudget(n)
            | Line::ServeBudget(n)
            | Line::DemandBudget(n)
            | Line::Stops(n) => form.filled(&[n]),
            Line::Stop(number, s) => form.filled(&[
                number,
                s.opens,
                s.closes,
                s.serve,
                s.serve_deviation,
                s.deliver,
                s.deliver_deviation,
                s.pickup,
                s.pickup_deviation,
                s.rest,
            ]),
            Line::Leg(i, j, leg) => form.filled(&[i, j, leg.travel, leg.travel_deviation]),
        }
    }
}

// Writes the line's text to the front of `out`, memory of the caller by the rules, and gives its length, or writes nothing
// where there is too little room.
pub fn write_line(line: Line, out: &mut [u8]) -> Option<usize>
    ensures room { result ≡ (if nat_le (length (line_text line)) (length out.old) then Some (length (line_text line)) else None) }
    ensures bytes { out.new ≡ (if nat_le (length (line_text line)) (length out.old) then line_text line ++ drop (length (line_text line)) out.old else out.old) }
{
    let text = line.text();
    let length = text.len();
    if length > out.len() {
        return None;
    }
    out[..length].copy_from_slice(&text);
    Some(length)
}
