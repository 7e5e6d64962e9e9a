// The lines that a day file is made of.
ghost use Rattle.std.specs.Prelude.{◌≡◌, length};
ghost use Rattle.std.specs.Option.{option_map};
ghost use Rattle.lines.specs.Scan.{holes};
ghost use Rattle.lines.specs.Forms.{template};
ghost use Rattle.lines.specs.Lines.{line_of, as_form, Parsed};

use crate::scan::scan;
use records::{Leg, Stop};

// What a line says, with the numbers left out. Not one type with `Line`: a form is looked for before there are numbers. The
// three budgets are forms of their own, since each is due at a place of its own.
#[derive(Clone, Copy, PartialEq, Eq, Debug)]
pub enum Form {
    Day,
    Depot,
    Capacity,
    Drive,
    TravelBudget,
    ServeBudget,
    DemandBudget,
    Stops,
    Stop,
    Leg,
    End,
}

#[derive(Clone, Copy, PartialEq, Eq, Debug)]
pub enum Line {
    Day,
    Depot(u32, u32),
    Capacity(u32),
    Drive(u32),
    TravelBudget(u32),
    ServeBudget(u32),
    DemandBudget(u32),
    Stops(u32),
    // a stop's number and its record
    Stop(u32, Stop),
    // the places that a leg leads from and to, and its record
    Leg(u32, u32, Leg),
    End,
}

// The most numbers that a line has.
pub(crate) const MOST_FIGURES: usize = 10;

const FORMS: [Form; 11] = [
    Form::Day,
    Form::Depot,
    Form::Capacity,
    Form::Drive,
    Form::TravelBudget,
    Form::ServeBudget,
    Form::DemandBudget,
    Form::Stops,
    Form::Stop,
    Form::Leg,
    Form::End,
];

impl Form {
    // The form's bytes, with # where a number stands.
    pub(crate) fn template(self) -> &'static [u8]
        ensures { result.now ≡ template self }
    {
        match self {
            Form::Day => b"(day\n",
            Form::Depot => b"(depot # #)\n",
            Form::Capacity => b"(capacity #)\n",
            Form::Drive => b"(drive #)\n",
            Form::TravelBudget => b"(budget travel #)\n",
            Form::ServeBudget => b"(budget serve #)\n",
            Form::DemandBudget => b"(budget demand #)\n",
            Form::Stops => b"(stops #)\n",
            Form::Stop =>
                b"(stop # (window # #) (serve # #) (deliver # #) (pickup # #) (rest #))\n",
            Form::Leg => b"(leg # # # #)\n",
            Form::End => b")\n",
        }
    }

    fn line(self, numbers: &[u32]) -> Line
        requires { length numbers.now ≡ holes (template self) }
        ensures { result ≡ line_of self numbers.now }
    {
        match self {
            Form::Day => Line::Day,
            Form::Depot => Line::Depot(numbers[0], numbers[1]),
            Form::Capacity => Line::Capacity(numbers[0]),
            Form::Drive => Line::Drive(numbers[0]),
            Form::TravelBudget => Line::TravelBudget(numbers[0]),
            Form::ServeBudget => Line::ServeBudget(numbers[0]),
            Form::DemandBudget => Line::DemandBudget(numbers[0]),
            Form::Stops => Line::Stops(numbers[0]),
            Form::Stop => Line::Stop(
                numbers[0],
                Stop {
                    opens: numbers[1],
                    closes: numbers[2],
                    serve: numbers[3],
                    serve_deviation: numbers[4],
                    deliver: numbers[5],
                    deliver_deviation: numbers[6],
                    pickup: numbers[7],
                    pickup_deviation: numbers[8],
                    rest: numbers[9],
                },
            ),
            Form::Leg => {
                let leg = Leg {
                    travel: numbers[2],
                    travel_deviation: numbers[3],
                };
                Line::Leg(numbers[0], numbers[1], leg)
            }
            Form::End => Line::End,
        }
    }
}

// The line of one form that the text begins with, and what stands after it.
fn parse_as(form: Form, text: &[u8]) -> Option<(Line, &[u8])>
    ensures { option_map (λ p. (p.0, p.1.now)) result ≡ as_form form text.now }
{
    let (numbers, rest) = scan(form.template(), text)?;
    Some((form.line(&numbers), rest))
}

// The line that the text begins with, and what stands after it; none where it begins with no line in form.
pub fn parse(text: &[u8]) -> Option<(Line, &[u8])>
    ensures { Parsed text.now (option_map (λ p. (p.0, p.1.now)) result) }
{
    FORMS.iter().find_map(|form| parse_as(*form, text))
}
