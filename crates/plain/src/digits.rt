// Digits from a place on.
ghost use Rattle.std.specs.Prelude.{◌+◌, ◌≤◌, length};
ghost use Rattle.plain.specs.Parts.{DigitsAt};

use lines::field::MOST_DIGITS;
use reading::{is_digit, value};

// The number that digits write, and the place after them.
#[derive(Drop)]
pub struct Digits {
    pub value: u64,
    pub to: usize,
}

// Seven places on, or the end of the text. By a test: with `saturating_add` and `min` in its place an import of long numbers took a seventh
// longer.
fn seven_on(from: usize, text: usize) -> usize
    requires { from ≤ text }
    ensures { (from ≤ result) × ((result ≤ text) × (result ≤ from + 7)) }
{
    if text - from < MOST_DIGITS {
        text
    } else {
        from + MOST_DIGITS
    }
}

// The digits from `from` on, at most seven.
pub fn digits_at(text: &[u8], from: usize) -> Digits
    requires { from ≤ length text.now }
    ensures { DigitsAt text.now from result }
{
    let most = seven_on(from, text.len());
    let mut v = 0;
    for i in from..most {
        let c = text[i];
        if !is_digit(c) {
            return Digits { value: v, to: i };
        }
        v = 10 * v + value(c);
    }
    Digits { value: v, to: most }
}
