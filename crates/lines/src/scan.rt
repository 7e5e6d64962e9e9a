// A text held against a template.
ghost use Rattle.std.specs.Prelude.{◌≡◌, ◌≤◌, [], length, IfSome};
ghost use Rattle.std.specs.Option.{option_map};
ghost use Rattle.lines.specs.Scan.{holes, scanned, after_byte};

use crate::line::MOST_FIGURES;
use crate::numeral::read_number;
use arrayvec::ArrayVec;

// Stands in a template where a number is due.
pub(crate) const HOLE: u8 = b'#';

// The text after the byte `c`, with which it is to begin.
fn after_byte(c: u8, text: &[u8]) -> Option<&[u8]>
    ensures { option_map (λ x. x.now) result ≡ after_byte c text.now }
{
    text.strip_prefix(&[c])
}

// The numbers that the text has in the places of the template, and what stands after it.
pub(crate) fn scan<'a>(
    template: &[u8],
    text: &'a [u8],
) -> Option<(ArrayVec<u32, MOST_FIGURES>, &'a [u8])>
    requires { holes template.now ≤ 10 }
    ensures found { option_map (λ p. (p.0.items, p.1.now)) result ≡ scanned template.now [] text.now }
    ensures count { IfSome result (λ p. length p.0.items ≡ holes template.now) }
{
    let mut numbers = ArrayVec::new();
    let mut rest = text;
    for c in template {
        if *c == HOLE {
            let (n, after) = read_number(rest)?;
            numbers.push(n);
            rest = after;
        } else {
            rest = after_byte(*c, rest)?;
        }
    }
    Some((numbers, rest))
}
