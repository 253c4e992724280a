// Weights a and b so that the order of a × distortion + b × rate is that of d × distortion + n × rate, and where that ties, of the rate:
// b/a is a fraction just above n/d, so far out that no two sums fit between.
ghost use Rattle.std.specs.Prelude.{◌+◌, ◌≤◌};
ghost use Rattle.keys.specs.OneKey.{Beside, Raised, Weighed};

use crate::cost::Ratio;
use tables::limits::MOST_TOTAL;

// A fraction: its common divisor, its lowest terms n/d, and a fraction up/down just above it.
#[derive(Clone, Copy, Debug, PartialEq, Eq)]
pub struct Terms {
    pub g: u64,
    pub n: u64,
    pub d: u64,
    pub up: u64,
    pub down: u64,
}

// The terms of n/d, by those of its remainder.
pub fn lowest(at: Ratio) -> Terms
    ensures { Beside at.n at.d result.g result.n result.d result.up result.down }
{
    if at.n == 0 {
        Terms {
            g: at.d,
            n: 0,
            d: 1,
            up: 1,
            down: 0,
        }
    } else {
        let k = at.d / at.n;
        let t = lowest(Ratio {
            n: at.d % at.n,
            d: at.n,
        });
        let whole = k * t.d + t.n;
        Terms {
            g: t.g,
            n: t.d,
            d: whole,
            up: t.d - t.down,
            down: whole - (t.up + k * t.down),
        }
    }
}

// How many steps of y bring x over the most.
fn steps(x: u64, y: u64) -> u64
    requires { (1 ≤ y) × (x ≤ y + 1) }
    ensures { Raised x y result }
{
    if x > MOST_TOTAL {
        0
    } else {
        (MOST_TOTAL - x) / y + 1
    }
}

// One number for a distortion and a rate: a × distortion + b × rate.
#[derive(Clone, Copy, Debug, PartialEq, Eq)]
pub struct Weights {
    pub a: u64,
    pub b: u64,
}

// The weights of the multiplier n/d.
pub fn weigh(at: Ratio) -> Weights
    ensures { Weighed at.n at.d result.a result.b }
{
    let t = lowest(at);
    let s = if t.n < t.d {
        steps(t.down, t.d)
    } else {
        steps(t.up, t.n)
    };
    Weights {
        a: t.down + s * t.d,
        b: t.up + s * t.n,
    }
}
