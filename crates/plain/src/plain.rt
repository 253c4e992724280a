// A plain line: five fields of digits without quotes, at scan 0 with nothing in the second, and a line end or the end of the text after
// them. Of any other line nothing is said here.
ghost use Rattle.std.specs.Prelude.{◌≡◌, ◌≤◌, IfSome, eqb, length, get_or};
ghost use Rattle.plain.specs.Parts.{FieldAt, PreviousAt, LastAt, IsPlain};

use crate::digits::{Digits, digits_at};
use lines::ends::{COMMA, ends_at};
use lines::says::Entry;

// A line that was read, and where it ends.
#[derive(Drop)]
pub struct Read {
    pub entry: Entry,
    pub end: usize,
}

// A comma stands at i.
fn comma_at(text: &[u8], i: usize) -> bool
    ensures { result ≡ eqb (get_or text.now i 0) 44 }
{
    text.get(i) == Some(&COMMA)
}

// A field of digits, with a comma after it.
fn field(text: &[u8], from: usize) -> Option<Digits>
    requires { from ≤ length text.now }
    ensures { IfSome result (λ d. FieldAt text.now from d) }
{
    let d = digits_at(text, from);
    if d.to != from && comma_at(text, d.to) {
        return Some(d);
    }
    None
}

// The previous field: at scan 0 the comma alone.
fn previous(text: &[u8], from: usize, scan: u64) -> Option<Digits>
    requires { from ≤ length text.now }
    ensures { IfSome result (λ d. PreviousAt text.now from scan d) }
{
    if scan != 0 {
        return field(text, from);
    }
    if comma_at(text, from) {
        return Some(Digits { value: 0, to: from });
    }
    None
}

// The last field, with which the line ends.
fn last(text: &[u8], from: usize) -> Option<Digits>
    requires { from ≤ length text.now }
    ensures { IfSome result (λ d. LastAt text.now from d) }
{
    let d = digits_at(text, from);
    if d.to != from && (d.to == text.len() || ends_at(text, d.to)) {
        return Some(d);
    }
    None
}

// The line that starts at `at`, if it is plain.
pub fn plain_line(text: &[u8], at: usize) -> Option<Read>
    requires { at ≤ length text.now }
    ensures { IsPlain text.now at result }
{
    let scan = field(text, at)?;
    let before = previous(text, scan.to + 1, scan.value)?;
    let setting = field(text, before.to + 1)?;
    let rate = field(text, setting.to + 1)?;
    let distortion = last(text, rate.to + 1)?;
    Some(Read {
        entry: Entry {
            scan: scan.value,
            previous: before.value,
            setting: setting.value,
            rate: rate.value,
            distortion: distortion.value,
        },
        end: distortion.to,
    })
}
