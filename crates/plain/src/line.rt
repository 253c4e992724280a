// The line that starts at a place.
ghost use Rattle.std.specs.Prelude.{◌≡◌, ◌≤◌, length};
ghost use Rattle.std.proofs.Math.Seq.{slice};
ghost use Rattle.lines.specs.Said.{says_of};
ghost use Rattle.lines.specs.Parts.{LineEnds, said};

use crate::plain::plain_line;
use lines::ends::line_end;
use lines::says::{Entry, says};

// What a line says, if it is not malformed, and where it ends.
#[derive(Drop)]
pub struct Found {
    pub line: Option<Entry>,
    pub end: usize,
}

// A plain line is read in one walk, any other by its parts.
pub fn line_at(text: &[u8], at: usize) -> Found
    requires { at ≤ length text.now }
    ensures { LineEnds text.now at result.end × (said result.line ≡ says_of (slice at result.end text.now)) }
{
    if let Some(read) = plain_line(text, at) {
        return Found {
            line: Some(read.entry),
            end: read.end,
        };
    }
    let end = line_end(text, at);
    Found {
        line: says(text, at, end),
        end,
    }
}
