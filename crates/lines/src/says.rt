// What a line says.
ghost use Rattle.std.specs.Prelude.{◌≡◌, ◌≤◌, length};
ghost use Rattle.std.proofs.Math.Seq.{slice};
ghost use Rattle.lines.specs.Text.{content, number};
ghost use Rattle.lines.specs.Said.{previous, says_of};
ghost use Rattle.lines.specs.Parts.{said};

use crate::ends::part_fields;
use crate::field::{inside, number_of};

// A measurement: "scan, previous setting, setting, rate, distortion".
#[derive(Clone, Copy)]
pub struct Entry {
    pub scan: u64,
    pub previous: u64,
    pub setting: u64,
    pub rate: u64,
    pub distortion: u64,
}

// The number of a field, in quotes or not.
fn field(text: &[u8], from: usize, to: usize) -> Option<u64>
    requires { (from ≤ to) × (to ≤ length text.now) }
    ensures { said result ≡ number (content (slice from to text.now)) }
{
    number_of(&text[inside(text, from, to)])
}

// The previous setting: an empty field at scan 0 and only there.
fn previous(scan: u64, text: &[u8], from: usize, to: usize) -> Option<u64>
    requires { (from ≤ to) × (to ≤ length text.now) }
    ensures { said result ≡ previous scan (content (slice from to text.now)) }
{
    let content = &text[inside(text, from, to)];
    if scan == 0 {
        return content.is_empty().then_some(0);
    }
    number_of(content)
}

// What the line from `from` up to `end` says, if it is not malformed.
pub fn says(text: &[u8], from: usize, end: usize) -> Option<Entry>
    requires { (from ≤ end) × (end ≤ length text.now) }
    ensures { said result ≡ says_of (slice from end text.now) }
{
    let e = part_fields(text, from, end)?;
    let scan = field(text, from, e.first)?;
    let before = previous(scan, text, e.first + 1, e.second)?;
    let setting = field(text, e.second + 1, e.third)?;
    let rate = field(text, e.third + 1, e.fourth)?;
    let distortion = field(text, e.fourth + 1, end)?;
    Some(Entry {
        scan,
        previous: before,
        setting,
        rate,
        distortion,
    })
}
