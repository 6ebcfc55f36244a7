// Rust's methods on f64 as functions. No operation here is undefined at any f64, so nothing is
// required.
ghost use Rattle.std.specs.Prelude.{◌≡◌};
ghost use Rattle.std.specs.Float.Ieee.Scale.{finite};
ghost use Rattle.arithmetic.specs.Number;
ghost use Rattle.arithmetic.specs.Number.{one, abs_of, min_of, max_of, clamp_of, within, copysign_of, rounded_of, ceil_of};
ghost use Rattle.arithmetic.specs.Part.{fractional};

// Whether x is neither a NaN nor an infinity.
pub fn is_finite(x: f64) -> bool
    ensures { result ≡ finite x }
{
    x.is_finite()
}

// Whether x lies within 0 and 1.
pub fn unit(x: f64) -> bool
    ensures { result ≡ within Number.zero one x }
{
    (0.0 <= x) & (x <= 1.0)
}

// The magnitude: a NaN stays one, and a zero loses its sign.
pub fn abs(x: f64) -> f64
    ensures { result ≡ abs_of x }
{
    x.abs()
}

// The smaller one; of a NaN and a number, the number. std's `min` and `max` leave open which of two equal zeros they
// give, which `min_of` and `max_of` do not.
pub fn min(a: f64, b: f64) -> f64
    ensures { result ≡ min_of a b }
{
    if b < a {
        b
    } else if a != a {
        b
    } else {
        a
    }
}

// The larger one; of a NaN and a number, the number. It stands apart from `min`, as `max_of` from `min_of`.
pub fn max(a: f64, b: f64) -> f64
    ensures { result ≡ max_of a b }
{
    if a < b {
        b
    } else if a != a {
        b
    } else {
        a
    }
}

// x kept within lo and hi. Where lo is above hi, hi: std's `clamp` asks that it is not.
pub fn clamp(x: f64, lo: f64, hi: f64) -> f64
    ensures { result ≡ clamp_of x lo hi }
{
    let mut y = x;
    if y < lo {
        y = lo;
    }
    if y > hi {
        y = hi;
    }
    y
}

// The magnitude of x with the sign of y; a NaN's counts as clear.
pub fn copysign(x: f64, y: f64) -> f64
    ensures { result ≡ copysign_of x y }
{
    if y.is_nan() { x.abs() } else { x.copysign(y) }
}

// Whether x may have a fraction: none is counted of what is not above 0, and from 2^52 on there is none.
fn has_fraction(x: f64) -> bool
    ensures { result ≡ fractional x }
{
    (0.0 < x) & (x < 4503599627370496.0)
}

// x rounded to the nearest whole number, halves upward.
pub fn round(x: f64) -> u64
    ensures { result ≡ rounded_of x }
{
    let whole = std::num::saturating_f64_to_u64(x);
    if has_fraction(x) && !(x < std::num::nearest_u64_to_f64(whole) + 0.5) {
        whole + 1
    } else {
        whole
    }
}

// The least whole number that is not below x. It has only the test for a fraction in common with `round`.
pub fn ceil(x: f64) -> u64
    ensures { result ≡ ceil_of x }
{
    let whole = std::num::saturating_f64_to_u64(x);
    if has_fraction(x) && std::num::nearest_u64_to_f64(whole) < x {
        whole + 1
    } else {
        whole
    }
}
