// What arrives on a reader, as standard input, numbers low byte first; past its end they are 0.
ghost use Rattle.std.specs.Prelude.{◌≤◌, IfOk, length};

use std::io;
use std::io::Read;

// Reads until the bytes are full or the input ends, and answers how many it reached; the others stay as they are.
pub fn read_full<R: Read>(input: &mut R, bytes: &mut [u8]) -> io::Result<usize>
    ensures { IfOk result (λ n. n ≤ length bytes.new) }
{
    let mut done = 0;
    // Each turn goes as far as a read came, so there is no range for a `for`.
    while done < bytes.len() {
        let n = input.read(&mut bytes[done..])?;
        if n == 0 {
            break;
        }
        done += n;
    }
    Ok(done)
}

// The next N bytes.
pub fn bytes<const N: usize>(input: &mut impl Read) -> io::Result<[u8; N]> {
    let mut b = [0u8; N];
    read_full(input, &mut b)?;
    Ok(b)
}

// The next number of N bytes.
pub fn number<const N: usize>(input: &mut impl Read) -> io::Result<u64>
    requires { N ≤ 8 }
{
    let mut b = [0u8; 8];
    read_full(input, &mut b[..N])?;
    Ok(u64::from_le_bytes(b))
}

// The number, or the most that there is room for.
pub fn least(x: u64, most: usize) -> usize
    ensures { result ≤ most }
{
    (x as usize).min(most)
}

// The next number of N bytes that says how many or where, so far as there is room.
pub fn place<const N: usize>(input: &mut impl Read, most: usize) -> io::Result<usize>
    requires { N ≤ 8 }
    ensures { IfOk result (λ n. n ≤ most) }
{
    Ok(least(number::<N>(input)?, most))
}
