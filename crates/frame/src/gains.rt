// The gain applied to each frame of a run.
ghost use Rattle.std.specs.Prelude.{◌≡◌, false, [], ◌∷◌, map, ℕ, ◌+◌, ◌≤◌, ◌<◌, length, replicate, Float};
ghost use Rattle.arithmetic.specs.Number.{zero};
ghost use Rattle.keeper.specs.InOrder.{most_frames};
ghost use Rattle.envelope.specs.Step.{enveloped_at, gain_step_at, gain_step_of, EnvReady};
ghost use Rattle.frame.specs.Frame.{required_gain};
ghost use Rattle.frame.specs.Passes.{gains_at, gains_of};

use arithmetic::number::min;
use envelope::env::{Envelope, GainStep};
use envelope::follow::follow_all;

// Below the target the ratio exceeds one and becomes unity, so there is no case of its own for it.
fn required_gain(target: f64, peak: f64) -> f64
    ensures { result ≡ required_gain target peak }
{
    min(target / peak, 1.0)
}

// The required gain of each frame, in its peak's place. Where nothing was heard every peak is 0, and no quotient is
// computed for it.
pub fn required_gains(heard: bool, target: f64, peaks: &mut [f64])
    requires { heard ≡ false → peaks.old ≡ replicate (length peaks.old) zero }
    ensures { peaks.new ≡ map (λ (p : Float). required_gain target p) peaks.old }
{
    if !heard & (0.0 <= target) {
        peaks.fill(1.0);
        return;
    }
    let n = peaks.len();
    for i in 0..n {
        peaks[i] = required_gain(target, peaks[i]);
    }
}

// The value of a list that has but one. A run's step tells no such value, and an Option of it would be tested in every run.
fn lone(xs: &[f64]) -> f64
    ensures { (x : Float) → xs.now ≡ x ∷ [] → result ≡ x }
{
    if let [x] = xs { *x } else { 1.0 }
}

// How many entries a step dropped that found so many and left so many, its own among them.
fn dropped_by(before: usize, after: usize) -> usize
    ensures { (d : ℕ) → 0 < after → d + after ≡ before + 1 → result ≡ d }
{
    before.saturating_sub(after.saturating_sub(1))
}

// A gain step for each frame, in three passes: the floors of all frames, which need no gain; the means
// of the row; the gains that follow them. The gain to apply takes the required gain's place. The
// envelope afterwards is handed back in a step; of one gain, all that its step tells is promised, of
// more the envelope alone.
pub fn gain_steps(
    env: Envelope,
    marks: &mut [u64],
    minima: &mut [f64],
    weights: &[f64],
    row: &mut [f64],
    coeff: f64,
    gains: &mut [f64],
) -> GainStep
    requires env_ready { EnvReady weights.now (enveloped_at env marks.old minima.old row.old) }
    requires gains_bound { env.keeper.frame + length gains.old ≤ most_frames }
    ensures stepped { gains_at result.env marks.new minima.new row.new gains.new
        ≡ gains_of weights.now coeff (enveloped_at env marks.old minima.old row.old) gains.old }
    ensures one_step { (x : Float) → gains.old ≡ x ∷ [] → gain_step_at result marks.new minima.new row.new
        ≡ gain_step_of weights.now coeff (enveloped_at env marks.old minima.old row.old) x }
{
    let keeper = env.keeper;
    let attack = env.attack;
    let kept = keeper.floors_in_order(marks, minima, gains);
    let floor = lone(gains);
    let pushed = attack.means(weights, row, gains);
    let mean = lone(gains);
    let gain = follow_all(env.gain, coeff, gains);
    GainStep {
        floor,
        dropped: dropped_by(keeper.len, kept.len),
        mean,
        env: Envelope {
            keeper: kept,
            attack: pushed,
            gain,
        },
    }
}
