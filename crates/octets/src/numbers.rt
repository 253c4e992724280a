// Numbers in bytes, low byte first.
ghost use Rattle.std.specs.Prelude.{◌≡◌, ◌+◌, ◌≤◌, ◌<◌, ◌^◌, length, replicate};
ghost use Rattle.std.proofs.lemmas.List.Edits.{sets};
ghost use Rattle.octets.specs.Bytes.{le, number_at};

// The number that N bytes hold.
pub fn number<const N: usize>(s: &[u8], at: usize) -> u64
    requires width { N ≤ 8 }
    requires inside { at + N ≤ length s.now }
    ensures held { result ≡ number_at at N s.now }
    ensures fits { result < 256 ^ N }
{
    let mut bytes = [0; 8];
    bytes[..N].copy_from_slice(&s[at..at + N]);
    u64::from_le_bytes(bytes)
}

// The N low bytes of x, the lowest first.
pub fn put_number<const N: usize>(out: &mut [u8], at: usize, x: u64)
    requires width { N ≤ 8 }
    requires inside { at + N ≤ length out.old }
    ensures { out.new ≡ sets out.old at (le N x) }
{
    out[at..at + N].copy_from_slice(&x.to_le_bytes()[..N]);
}

pub fn put_zeros(out: &mut [u8], at: usize, k: usize)
    requires { at + k ≤ length out.old }
    ensures { out.new ≡ sets out.old at (replicate k 0) }
{
    out[at..at + k].fill(0);
}
