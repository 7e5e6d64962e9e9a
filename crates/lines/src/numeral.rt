// Numbers in base ten.
ghost use Rattle.std.specs.Prelude.{◌≡◌, ◌≤◌, true, length};
ghost use Rattle.std.specs.Option.{option_map};
ghost use Rattle.std.specs.Str.{all_ascii_digits};
ghost use Rattle.lines.specs.Numerals.{read_on, digit_run, in_form, number_at};

// A number has at most so many digits.
const MOST_DIGITS: usize = 6;

// How many digits the text begins with.
fn digit_run(text: &[u8]) -> usize
    ensures value { result ≡ digit_run text.now }
    ensures within { result ≤ length text.now }
{
    text.iter()
        .position(|b| !b.is_ascii_digit())
        .unwrap_or(text.len())
}

#[tactic(auto, using(crate::proofs::Digits::reading))]
fn value(digits: &[u8]) -> u32
    requires { (length digits.now ≤ 6) × (all_ascii_digits digits.now ≡ true) }
    ensures { result ≡ read_on 0 digits.now }
{
    let mut n = 0;
    for b in digits {
        n = 10 * n + u32::from(*b - b'0');
    }
    n
}

fn in_form(digits: &[u8]) -> bool
    ensures { result ≡ in_form digits.now }
{
    match digits {
        [] => false,
        [_] => true,
        [first, ..] => digits.len() <= MOST_DIGITS && *first != b'0',
    }
}

// The number that the text begins with, and what stands after it.
#[tactic(auto, using(crate::proofs::Digits::runs))]
pub(crate) fn read_number(text: &[u8]) -> Option<(u32, &[u8])>
    ensures { option_map (λ p. (p.0, p.1.now)) result ≡ number_at text.now }
{
    let (digits, rest) = text.split_at(digit_run(text));
    if in_form(digits) {
        Some((value(digits), rest))
    } else {
        None
    }
}
