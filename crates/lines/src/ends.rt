// Where a line ends, and where its fields do.
ghost use Rattle.std.specs.Prelude.{◌≡◌, ◌+◌, ◌≤◌, min, length, drop};
ghost use Rattle.lines.specs.Text.{line_end};
ghost use Rattle.lines.specs.Parts.{LineEnds, CommaFound, EndsOf};

pub const CR: u8 = b'\r';

pub const LF: u8 = b'\n';

pub const COMMA: u8 = b',';

// A line end stands at i: CR, and LF after it.
pub fn ends_at(text: &[u8], i: usize) -> bool
    requires { i ≤ length text.now }
    ensures { result ≡ line_end (drop i text.now) }
{
    matches!(&text[i..], [CR, LF, ..])
}

// Where the line that starts at `from` ends: its line end, or the end of the text.
pub fn line_end(text: &[u8], from: usize) -> usize
    requires { from ≤ length text.now }
    ensures { LineEnds text.now from result }
{
    for i in from..text.len() {
        if ends_at(text, i) {
            return i;
        }
    }
    text.len()
}

// The place behind a line that ends at `end`: behind its line end, or the end of the text.
pub fn behind(end: usize, text: usize) -> usize
    requires { end ≤ text }
    ensures { result ≡ min (end + 2) text }
{
    end.saturating_add(2).min(text)
}

// The first comma from `from` on, if one stands before `end`.
fn comma(text: &[u8], from: usize, end: usize) -> Option<usize>
    requires { (from ≤ end) × (end ≤ length text.now) }
    ensures { CommaFound text.now from end result }
{
    let at = text[from..end].iter().position(|c| *c == COMMA)?;
    Some(from + at)
}

// Where the first four of five fields end; the fifth ends with the line.
#[derive(Drop)]
pub struct Ends {
    pub first: usize,
    pub second: usize,
    pub third: usize,
    pub fourth: usize,
}

// The ends of the fields of a line, if there are five.
pub fn part_fields(text: &[u8], from: usize, end: usize) -> Option<Ends>
    requires { (from ≤ end) × (end ≤ length text.now) }
    ensures { EndsOf text.now from end result }
{
    let first = comma(text, from, end)?;
    let second = comma(text, first + 1, end)?;
    let third = comma(text, second + 1, end)?;
    let fourth = comma(text, third + 1, end)?;
    match comma(text, fourth + 1, end) {
        Some(_) => None,
        None => Some(Ends {
            first,
            second,
            third,
            fourth,
        }),
    }
}
