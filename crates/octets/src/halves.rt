// The two halves of a byte, by entry number: two entries to a byte, the even one in the low four bits.
// Shifts and masks by entry number are the form that document 01 names.
ghost use Rattle.std.specs.Prelude.{◌≡◌, ◌%◌, ◌<◌};
ghost use Rattle.octets.specs.Bytes.{half, with_half};

// The half of entry k.
pub fn half_of(b: u8, k: usize) -> u8
    ensures { (result ≡ half b (k % 2)) × (result < 16) }
{
    (b >> (4 * (k & 1))) & 15
}

// The byte with v for entry k.
pub fn with_half(b: u8, k: usize, v: u8) -> u8
    requires { v < 16 }
    ensures { result ≡ with_half b (k % 2) v }
{
    if k & 1 == 0 {
        return (b & 240) | v;
    }
    (b & 15) | (v << 4)
}
