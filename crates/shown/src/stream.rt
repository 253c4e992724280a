// A table by a generator: four numbers on standard input, its seed, base, span and forbid, stand for any count of cells.
ghost use Rattle.std.specs.Prelude.{◌<◌};

use crate::input::number;
use std::io;
use std::io::Read;
use tables::limits::{FORBIDDEN, MOST_CELL};

// The stream's numbers are below this prime, 2^31 - 1.
const PRIME: u64 = 2147483647;

// The next number of the stream.
fn next(x: u32) -> u32
    ensures { result < 2147483647 }
{
    (u64::from(x) * 48271 % PRIME) as u32
}

// What a generator makes of the numbers of its stream.
#[derive(Clone, Copy)]
struct Generator {
    base: u64,
    span: u64,
    forbid: u64,
}

impl Generator {
    // Forbidden where the number is a multiple of `forbid`, else `base` and the rest modulo `span` over it.
    fn cell(self, x: u64) -> u32 {
        if 0 < self.forbid && x % self.forbid == 0 {
            FORBIDDEN
        } else if self.base <= u64::from(MOST_CELL) && 0 < self.span && self.span <= 1048576 {
            (self.base + x % self.span) as u32
        } else {
            0
        }
    }
}

// The cells of a table, by the generator whose four numbers follow in the input.
pub fn generated<R: Read>(input: &mut R, table: &mut [u32]) -> io::Result<()> {
    let mut x = (number::<8>(input)? % PRIME) as u32;
    let generator = Generator {
        base: number::<8>(input)?,
        span: number::<8>(input)?,
        forbid: number::<8>(input)?,
    };
    for cell in table.iter_mut() {
        x = next(x);
        *cell = generator.cell(u64::from(x));
    }
    Ok(())
}
