// Sample sanitization at the limiter's boundaries (sanitize.rs).
ghost use Rattle.std.specs.Prelude.{◌≡◌};
ghost use Rattle.arithmetic.specs.Sanitize.{finite_or_zero, flush_denormal, unit_gain};

use crate::number::{clamp, is_finite, unit};

// Outputs below this magnitude are flushed to zero.
const DENORMAL_FLOOR: f64 = 1e-30;

// x where it is finite, else silence.
pub fn finite_or_zero(x: f64) -> f64
    ensures { result ≡ finite_or_zero x }
{
    if is_finite(x) { x } else { 0.0 }
}

// The output rule: a finite number, or +0.0 where its magnitude is below 1e-30. Two tests with no branch
// between them are faster than a magnitude and one test.
pub fn flush_denormal(x: f64) -> f64
    ensures { result ≡ flush_denormal x }
{
    let y = finite_or_zero(x);
    if (y < DENORMAL_FLOOR) & (-DENORMAL_FLOOR < y) {
        0.0
    } else {
        y
    }
}

// A gain: what is not finite counts as 0.0, and the rest is kept within 0 and 1. Nearly every gain
// is there already, and a branch that is nearly never taken keeps the clamping off the chain from
// gain to gain.
pub fn unit_gain(x: f64) -> f64
    ensures { result ≡ unit_gain x }
{
    if unit(x) {
        return x;
    }
    clamp(finite_or_zero(x), 0.0, 1.0)
}
