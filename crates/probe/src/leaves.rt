// The leaves of `arithmetic`, one function for each: each is a C function under its own name.
ghost use Rattle.std.specs.Prelude.{◌≡◌};
ghost use Rattle.std.specs.Float.{binary32};
ghost use Rattle.std.specs.Float.Ieee.{to_bits};
ghost use Rattle.arithmetic.specs.Number.{abs_of, min_of, max_of, clamp_of, copysign_of, rounded_of, ceil_of};
ghost use Rattle.arithmetic.specs.Sanitize.{finite_or_zero, flush_denormal};
ghost use Rattle.arithmetic.specs.Exp.{exp_reply};
ghost use Rattle.arithmetic.specs.Narrow.{widened, narrowed};
ghost use Rattle.probe.specs.Out.{value_or};

use arithmetic::math::OutOfDomain;

#[unsafe(no_mangle)]
pub extern "C" fn probe_finite_or_zero(x: f64) -> f64
    ensures { result ≡ finite_or_zero x }
{
    arithmetic::sanitize::finite_or_zero(x)
}

#[unsafe(no_mangle)]
pub extern "C" fn probe_flush_denormal(x: f64) -> f64
    ensures { result ≡ flush_denormal x }
{
    arithmetic::sanitize::flush_denormal(x)
}

// The result is document 01's number, 0 where `out` holds the value; a refused call leaves it alone.
#[unsafe(no_mangle)]
pub extern "C" fn probe_exp(x: f64, out: &mut f64) -> u32
    ensures { (result ≡ (exp_reply x).number) × (out.new ≡ value_or out.old (exp_reply x).values) }
{
    match arithmetic::math::exp(x) {
        Ok(v) => {
            *out = v;
            0
        }
        Err(OutOfDomain) => 26,
    }
}

#[unsafe(no_mangle)]
pub extern "C" fn probe_abs(x: f64) -> f64
    ensures { result ≡ abs_of x }
{
    arithmetic::number::abs(x)
}

#[unsafe(no_mangle)]
pub extern "C" fn probe_min(a: f64, b: f64) -> f64
    ensures { result ≡ min_of a b }
{
    arithmetic::number::min(a, b)
}

#[unsafe(no_mangle)]
pub extern "C" fn probe_max(a: f64, b: f64) -> f64
    ensures { result ≡ max_of a b }
{
    arithmetic::number::max(a, b)
}

#[unsafe(no_mangle)]
pub extern "C" fn probe_clamp(x: f64, lo: f64, hi: f64) -> f64
    ensures { result ≡ clamp_of x lo hi }
{
    arithmetic::number::clamp(x, lo, hi)
}

#[unsafe(no_mangle)]
pub extern "C" fn probe_copysign(x: f64, y: f64) -> f64
    ensures { result ≡ copysign_of x y }
{
    arithmetic::number::copysign(x, y)
}

#[unsafe(no_mangle)]
pub extern "C" fn probe_round(x: f64) -> u64
    ensures { result ≡ rounded_of x }
{
    arithmetic::number::round(x)
}

#[unsafe(no_mangle)]
pub extern "C" fn probe_ceil(x: f64) -> u64
    ensures { result ≡ ceil_of x }
{
    arithmetic::number::ceil(x)
}

// The value of 32 bits.
#[unsafe(no_mangle)]
pub extern "C" fn probe_widen(n: u32) -> f64
    ensures { result ≡ widened n }
{
    arithmetic::narrow::widen(n)
}

// The 32 bits of the nearest f32.
#[tactic(auto, using(arithmetic::proofs::Exact32::narrowed_fits))]
#[unsafe(no_mangle)]
pub extern "C" fn probe_narrow(x: f64) -> u32
    ensures { result ≡ to_bits binary32 (narrowed x) }
{
    arithmetic::narrow::to_bits32(arithmetic::narrow::narrow(x))
}
