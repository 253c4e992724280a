// Digests of tables and texts that are too long to be stored whole: x starts at 1, and for each cell or byte y in turn x becomes
// 48,271 x + y modulo 4,294,967,311, a prime over every cell, so that no two cells count alike.
ghost use Rattle.std.specs.Prelude.{◌<◌};

fn step(x: u64, y: u32) -> u64
    requires { x < 4294967311 }
    ensures { result < 4294967311 }
{
    (48271 * x + u64::from(y)) % 4294967311
}

pub fn digest<T: Copy + Into<u32>>(cells: &[T]) -> u64 {
    let mut x = 1;
    for y in cells {
        x = step(x, (*y).into());
    }
    x
}
