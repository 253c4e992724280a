// Each text, fed in pieces, and what is written for it.
ghost use Rattle.std.specs.Prelude.{◌≤◌};

use reading::State;
use shown::input::{number, read_full};
use std::io;
use std::io::{Read, Write};

// The most bytes of a piece.
const MOST: usize = 4096;

// Room for a piece, the numbers of a text, and the lines for it.
#[derive(Drop)]
pub struct Room {
    pub piece: [u8; MOST],
    pub numbers: [u32; 8196],
    pub lines: [u8; 8704],
}

impl Room {
    // A text of so many bytes, in pieces of `size`, the last of which may be shorter. As bench takes it, once it has read enough, what follows
    // is skipped.
    fn text<R: Read>(&mut self, input: &mut R, bytes: usize, size: usize) -> io::Result<State>
        requires { (1 ≤ size) × (size ≤ 4096) }
    {
        let mut s = reading::fresh();
        for start in (0..bytes).step_by(size) {
            let n = size.min(bytes - start);
            let piece = &mut self.piece[..];
            let got = read_full(input, &mut piece[..n])?;
            if !workbench::enough(s, &self.numbers) {
                s = reading::feed(s, &self.piece[..got], &mut self.numbers);
            }
        }
        Ok(s)
    }

    // One case: the lines for a text, and a line that ends them; false where there is none.
    pub fn case<R: Read, W: Write>(&mut self, input: &mut R, out: &mut W) -> io::Result<bool> {
        if number::<1>(input)? != 1 {
            return Ok(false);
        }
        let bytes = number::<4>(input)? as usize;
        let size = number::<2>(input)?.clamp(1, 4096) as usize;
        let s = self.text(input, bytes, size)?;
        let n = workbench::answer(s, &mut self.numbers, &mut self.lines);
        out.write_all(&self.lines[..n])?;
        out.write_all(b"-\n")?;
        Ok(true)
    }
}
