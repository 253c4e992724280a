// Bits and distortion are separate quantities. They meet only here, through a multiplier or through weights in its place. A tuple struct of
// one number for each kind is the form that document 01 names.
ghost use Rattle.std.specs.Prelude.{◌≡◌, ◌+◌, ◌*◌, ◌≤◌, ◌<◌, ◌^◌};
ghost use Rattle.tables.specs.Limits.{most_term};

use std::ops::Add;

// Bits.
#[derive(Clone, Copy, Debug, PartialEq, Eq, PartialOrd, Ord)]
pub struct Rate(pub u64);

// Distortion.
#[derive(Clone, Copy, Debug, PartialEq, Eq, PartialOrd, Ord)]
pub struct Dist(pub u64);

// What a cell says.
impl From<u32> for Rate {
    ghost from_gives = { λ cell r. r.0 ≡ cell };

    fn from(cell: u32) -> Rate {
        Rate(u64::from(cell))
    }
}

impl From<u32> for Dist {
    ghost from_gives = { λ cell r. r.0 ≡ cell };

    fn from(cell: u32) -> Dist {
        Dist(u64::from(cell))
    }
}

// Rates are added to rates, and distortions to distortions.
impl Add for Rate {
    type Output = Rate;

    ghost can_add = { λ a b. a.0 + b.0 < 2 ^ 64 };

    ghost add_gives = { λ a b r. r.0 ≡ a.0 + b.0 };

    fn add(self, other: Rate) -> Rate {
        Rate(self.0 + other.0)
    }
}

impl Add for Dist {
    type Output = Dist;

    ghost can_add = { λ a b. a.0 + b.0 < 2 ^ 64 };

    ghost add_gives = { λ a b r. r.0 ≡ a.0 + b.0 };

    fn add(self, other: Dist) -> Dist {
        Dist(self.0 + other.0)
    }
}

// What the two come to together: a third kind of number, and what a pass compares.
#[derive(Clone, Copy, Debug, PartialEq, Eq, PartialOrd, Ord)]
pub struct Amount(pub u64);

// A multiplier n/d, with n and d in their range.
#[derive(Clone, Copy, Debug, PartialEq, Eq)]
pub struct Ratio {
    pub n: u64,
    pub d: u64,
    ghost in_range: { (n ≤ most_term) × ((1 ≤ d) × (d ≤ most_term)) },
}

// d × distortion + n × rate.
pub fn cost(rate: Rate, distortion: Dist, n: u64, d: u64) -> Amount
    requires { d * distortion.0 + n * rate.0 < 2 ^ 64 }
    ensures { result.0 ≡ d * distortion.0 + n * rate.0 }
{
    Amount(d * distortion.0 + n * rate.0)
}
