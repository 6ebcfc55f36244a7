// An f64 to the nearest f32, ties to even, worked out from the 64 bits; 32 bits to the f64 of the same
// value, and back.
ghost use Rattle.std.specs.Prelude.{◌≡◌, ◌+◌, ◌%◌, ◌^◌, ◌<◌, true, T, from_bits, to_bits};
ghost use Rattle.std.specs.Float.{binary32, binary64};
ghost use Rattle.std.specs.Float.Ieee.{fits};
ghost use Rattle.std.specs.Float.Ieee.Nearest.{closest};
ghost use Rattle.arithmetic.specs.Narrow.{widened, narrowed};
ghost use Rattle.arithmetic.specs.Part.{least_normal_bits, magnitude_of, is_normal};
ghost use Rattle.arithmetic.specs.Sanitize.{finite_or_zero, flush_denormal};

use crate::sanitize::flush_denormal;

// `widen`, `finite_widen` and `to_bits32` stand beside their likes of 64 bits in pattern.rt: the impls of a trait for both
// widths would hold the same bodies.

// The weight of an f32's last place in an f64's digits.
const PLACE: u64 = 0x2000_0000;
// The patterns of 2^-126, from which on an f32 is normal; of 1e-30, below which outputs become 0.0; and
// of 2^128 − 2^103, from which on an f32 is an infinity.
const LEAST_NORMAL: u64 = 0x3810_0000_0000_0000;

const DENORMAL_FLOOR: u64 = 0x39b4_484b_feeb_c2a0;

const OVERFLOW: u64 = 0x47ef_ffff_f000_0000;

// The value of 32 bits; every NaN pattern reads as the one NaN.
pub fn widen(n: u32) -> f64
    ensures { result ≡ widened n }
{
    if 0x7f80_0000 < n % 0x8000_0000 {
        0.0 / 0.0
    } else {
        f32::from_bits(n) as f64
    }
}

// The value of 32 bits where it is finite, else silence: one test on the pattern, as in `finite_from_bits`.
pub fn finite_widen(n: u32) -> f64
    ensures { result ≡ finite_or_zero (widened n) }
{
    if n % 0x8000_0000 / 0x80_0000 == 255 {
        0.0
    } else {
        f32::from_bits(n) as f64
    }
}

// The 32 bits of a value that an f32 holds; a NaN is written as 7fc00000.
pub fn to_bits32(x: f64) -> u32
    requires { T (fits binary32 x) }
    ensures { result ≡ to_bits binary32 x }
{
    if x != x {
        0x7fc0_0000
    } else {
        f32::to_bits(x as f32)
    }
}

// n in units, to the closest whole number of them, a tie to the even one. The unit is even.
fn closest_to(n: u64, unit: u64) -> u64
    requires unit_some { 0 < unit }
    requires unit_even { unit % 2 ≡ 0 }
    requires room { n + unit < 2 ^ 64 }
    ensures { result ≡ closest n unit }
{
    (n + (unit / 2 - 1) + n / unit % 2) / unit
}

// Below 2^-126 the f32 values are the multiples of 2^-149, and the pattern of a multiple is its number.
// 873 is the exponent of 2^-150, half of one: what is below has none.
fn narrow_small(b: u64) -> f64
    requires { b % 2 ^ 63 < least_normal_bits }
    ensures { result ≡ narrowed (from_bits binary64 b) }
{
    let sign = b / 0x8000_0000_0000_0000 * 0x8000_0000;
    let exponent = b % 0x8000_0000_0000_0000 / 0x10_0000_0000_0000;
    if exponent < 873 {
        return widen(sign as u32);
    }
    let digits = 0x10_0000_0000_0000 + b % 0x10_0000_0000_0000;
    let count = closest_to(digits, 1 << (926 - exponent));
    widen((sign + count) as u32)
}

// From 2^-126 on the last 29 digits are rounded off where they stand, and a carry goes on into the
// exponent, as it should.
fn narrow_normal(x: f64) -> f64
    requires { is_normal (magnitude_of x) ≡ true }
    ensures { result ≡ narrowed x }
{
    f64::from_bits(closest_to(f64::to_bits(x), PLACE) * PLACE)
}

// The nearest f32.
pub fn narrow(x: f64) -> f64
    ensures { result ≡ narrowed x }
{
    if x != x {
        return x;
    }
    let b = f64::to_bits(x);
    let m = b % 0x8000_0000_0000_0000;
    if (LEAST_NORMAL <= m) & (m < OVERFLOW) {
        return narrow_normal(x);
    }
    if m < LEAST_NORMAL {
        return narrow_small(b);
    }
    f64::from_bits(b - m + 0x7ff0_0000_0000_0000)
}

// The output rule of f32: small values become 0.0, and then the nearest f32. Nearly every output is at
// least 1e-30 in magnitude and below overflow, which one test on the bits tells.
pub fn narrow_flushed(x: f64) -> f64
    ensures { result ≡ narrowed (flush_denormal x) }
{
    if x != x {
        return 0.0;
    }
    let m = f64::to_bits(x) % 0x8000_0000_0000_0000;
    if (DENORMAL_FLOOR <= m) & (m < OVERFLOW) {
        return narrow_normal(x);
    }
    narrow(flush_denormal(x))
}
