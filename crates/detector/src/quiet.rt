// Quiet runs: where every sample lies within the level for a ceiling, no answer of the detector is above
// the ceiling, and no sum need be computed.
ghost use Rattle.std.specs.Prelude.{◌≡◌};
ghost use Rattle.std.specs.Float.Ieee.{neg};
ghost use Rattle.arithmetic.specs.Number.{within};
ghost use Rattle.detector.specs.Level.{level_of, all_within, lies_within};

// The share of a ceiling that samples may have: the magnitudes of no phase's taps add up to more than
// 1.7916, so their sums, roundings included, stay below the ceiling.
const SHARE: f64 = 0.55;

// 2 to the −13, the least ceiling that has a level.
const LEAST_CEILING: f64 = 0.0001220703125;

// The level for a ceiling: where samples lie within it, neither they nor the detector's answers for them
// are above the ceiling. 0.0 where the ceiling has none: only silence lies within it.
pub fn level_below(ceiling: f64) -> f64
    ensures { result ≡ level_of ceiling }
{
    if (LEAST_CEILING <= ceiling) & (ceiling <= 1.0) {
        ceiling * SHARE
    } else {
        0.0
    }
}

// Whether x lies within −m and m.
fn lies(m: f64, x: f64) -> bool
    ensures { result ≡ within (neg m) m x }
{
    (-m <= x) & (x <= m)
}

// Whether every sample lies within −m and m. It reads them all, without a way out: several in one
// instruction.
fn all_within(m: f64, samples: &[f64]) -> bool
    ensures { result ≡ all_within m samples.now }
{
    let mut ok = true;
    for x in samples {
        ok = ok & lies(m, *x);
    }
    ok
}

// Whether the store has its twelve samples and they and the run's all lie within the level. A NaN lies
// within nothing. The store is any slice, as `peak_abs` takes one.
pub fn lies_within(store: &[f64], samples: &[f64], level: f64) -> bool
    ensures { result ≡ lies_within store.now samples.now level }
{
    if store.len() != 12 {
        return false;
    }
    // two tests, not one: the twelve are then compared several in one instruction
    if !all_within(level, samples) {
        return false;
    }
    all_within(level, store)
}
