// The line of a cell.
ghost use Rattle.std.specs.Prelude.{◌≡◌, [], ◌∷◌, ◌++◌, ◌+◌, ◌≤◌, ◌<◌, length};
ghost use Rattle.std.proofs.lemmas.List.Edits.{sets};
ghost use Rattle.exports.specs.Export.{decimal, export_line, previous_field};
ghost use Rattle.exports.specs.Parts.{FewDigits};

use crate::digits::{put_digits, width};
use crate::place::Place;
use lines::ends::{COMMA, CR, LF};

// What a line says: where the cell stands, its rate and its distortion.
#[derive(Clone, Copy)]
pub struct Line {
    pub place: Place,
    pub rate: u64,
    pub distortion: u64,
    ghost few_digits: { FewDigits place rate distortion },
}

// The bytes of the previous field.
#[tactic(auto, unfolding(crate::specs::Export::previous_field))]
fn previous_width(p: Place) -> usize
    requires { p.previous < 100 }
    ensures { (result ≡ length (previous_field p)) × (result ≤ 2) }
{
    if p.scan == 0 { 0 } else { width(p.previous) }
}

// A number and a comma.
fn put_field(out: &mut [u8], at: usize, x: u64) -> usize
    requires { (x < 10000000) × (at + length (decimal x) + 1 ≤ length out.old) }
    ensures { (result ≡ at + length (decimal x) + 1) × (out.new ≡ sets out.old at (decimal x ++ (44 ∷ []))) }
{
    let comma = put_digits(out, at, x);
    out[comma] = COMMA;
    comma + 1
}

// The previous field and a comma.
fn put_previous(out: &mut [u8], at: usize, p: Place) -> usize
    requires { (p.previous < 100) × (at + length (previous_field p) + 1 ≤ length out.old) }
    ensures { (result ≡ at + length (previous_field p) + 1) × (out.new ≡ sets out.old at (previous_field p ++ (44 ∷ []))) }
{
    if p.scan == 0 {
        out[at] = COMMA;
        return at + 1;
    }
    put_field(out, at, p.previous)
}

impl Line {
    // Its bytes: the digits, four commas, CR and LF.
    pub fn len(self) -> usize
        ensures { (result ≡ length (export_line self.place self.rate self.distortion)) × (result ≤ 28) }
    {
        width(self.place.scan)
            + previous_width(self.place)
            + width(self.place.setting)
            + width(self.rate)
            + width(self.distortion)
            + 6
    }

    // The line, from `at` on; the place after it.
    #[tactic(auto, using(crate::proofs::LineLaws::line_long))]
    pub fn put(self, out: &mut [u8], at: usize) -> usize
        requires { at + length (export_line self.place self.rate self.distortion) ≤ length out.old }
        ensures { (result ≡ at + length (export_line self.place self.rate self.distortion)) × (out.new ≡ sets out.old at (export_line self.place self.rate self.distortion)) }
    {
        let second = put_field(out, at, self.place.scan);
        let third = put_previous(out, second, self.place);
        let fourth = put_field(out, third, self.place.setting);
        let fifth = put_field(out, fourth, self.rate);
        let end = put_digits(out, fifth, self.distortion);
        out[end] = CR;
        out[end + 1] = LF;
        end + 2
    }
}
