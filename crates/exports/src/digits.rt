// Decimal digits.
ghost use Rattle.std.specs.Prelude.{◌≡◌, ◌+◌, ◌≤◌, ◌<◌, length};
ghost use Rattle.std.proofs.lemmas.List.Edits.{sets};
ghost use Rattle.exports.specs.Export.{decimal};

// How many digits a number of at most seven has. (One digit is told before the logarithm is asked: without that an export of short
// numbers took longer than by counting.)
pub fn width(x: u64) -> usize
    requires { x < 10000000 }
    ensures { (result ≡ length (decimal x)) × (result ≤ 7) }
{
    if x < 10 {
        return 1;
    }
    x.ilog10() as usize + 1
}

// The digits, from `at` on; the place after them.
#[tactic(auto, using(crate::proofs::DecimalLaws::width_one, crate::proofs::DecimalLaws::width_more))]
pub fn put_digits(out: &mut [u8], at: usize, x: u64) -> usize
    requires { (x < 10000000) × (at + length (decimal x) ≤ length out.old) }
    ensures { (result ≡ at + length (decimal x)) × (out.new ≡ sets out.old at (decimal x)) }
{
    if x < 10 {
        out[at] = b'0' + x as u8;
        return at + 1;
    }
    let last = put_digits(out, at, x / 10);
    out[last] = b'0' + (x % 10) as u8;
    last + 1
}
