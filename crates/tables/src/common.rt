// The common divisor, by the remainder rule of Euclid. That it calls itself on the remainder is the form that document 01 names.
ghost use Rattle.std.specs.Prelude.{◌≡◌};
ghost use Rattle.criteria.specs.Fraction.{gcd};

pub fn common(a: u64, b: u64) -> u64
    ensures { result ≡ gcd a b }
{
    if b == 0 { a } else { common(b, a % b) }
}
