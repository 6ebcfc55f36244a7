// An f64 and its bit pattern, for every pattern. The language's own `from_bits` and `to_bits` are not
// defined at a NaN, so it is tested first: every NaN pattern reads as the one NaN, which is written
// as 7ff8000000000000.
ghost use Rattle.std.specs.Prelude.{◌≡◌, from_bits, to_bits};
ghost use Rattle.std.specs.Float.{binary64};
ghost use Rattle.arithmetic.specs.Number.{same_value};
ghost use Rattle.arithmetic.specs.Sanitize.{finite_or_zero};

// The f64 that a pattern stands for.
pub fn from_bits(n: u64) -> f64
    ensures { result ≡ from_bits binary64 n }
{
    if 0x7ff0_0000_0000_0000 < n % 0x8000_0000_0000_0000 {
        0.0 / 0.0
    } else {
        f64::from_bits(n)
    }
}

// The f64 that a pattern stands for where it is finite, else silence: one test on the pattern, whose
// exponent is all ones at the infinities and the NaNs alone.
pub fn finite_from_bits(n: u64) -> f64
    ensures { result ≡ finite_or_zero (from_bits binary64 n) }
{
    if n % 0x8000_0000_0000_0000 / 0x10_0000_0000_0000 == 2047 {
        0.0
    } else {
        f64::from_bits(n)
    }
}

// The pattern of an f64.
pub fn to_bits(x: f64) -> u64
    ensures { result ≡ to_bits binary64 x }
{
    if x != x {
        0x7ff8_0000_0000_0000
    } else {
        f64::to_bits(x)
    }
}

// Whether two values are the same, sign included: `==` takes two zeros for one, and no NaN for itself.
pub fn same_value(x: f64, y: f64) -> bool
    ensures { result ≡ same_value x y }
{
    to_bits(x) == to_bits(y)
}
