// What a field holds: its content, and the number that this writes.
ghost use Rattle.std.specs.Prelude.{◌≡◌, ◌≤◌, length};
ghost use Rattle.std.proofs.Math.Seq.{slice};
ghost use Rattle.lines.specs.Text.{content, number, quoted};
ghost use Rattle.lines.specs.Parts.{said};

use reading::{is_digit, value};
use std::ops::Range;

const QUOTE: u8 = b'"';

// "one to seven decimal digits"
pub const MOST_DIGITS: usize = 7;

fn is_quoted(field: &[u8]) -> bool
    ensures { result ≡ quoted field.now }
{
    matches!(field, [QUOTE, .., QUOTE])
}

// The content of a field: what stands between its quotes, or all of it.
pub fn inside(text: &[u8], from: usize, to: usize) -> Range<usize>
    requires { (from ≤ to) × (to ≤ length text.now) }
    ensures { (result.start ≤ result.end) × ((result.end ≤ to) × (slice result.start result.end text.now ≡ content (slice from to text.now))) }
{
    if is_quoted(&text[from..to]) {
        return from + 1..to - 1;
    }
    from..to
}

// The number that the content of a field writes, if it is one to seven digits.
pub fn number_of(content: &[u8]) -> Option<u64>
    ensures { said result ≡ number content.now }
{
    if content.is_empty() || MOST_DIGITS < content.len() {
        return None;
    }
    let mut v = 0;
    for c in content {
        if !is_digit(*c) {
            return None;
        }
        v = 10 * v + value(*c);
    }
    Some(v)
}
