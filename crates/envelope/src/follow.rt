// The gain's attack and release.
ghost use Rattle.std.specs.Prelude.{◌≡◌};
ghost use Rattle.envelope.specs.Follow.{moved, followed, attacks};
ghost use Rattle.envelope.specs.Run.{follows_at, followed_all};

use arithmetic::number::unit;
use arithmetic::sanitize::unit_gain;

fn moved(gain: f64, mean: f64, coeff: f64) -> f64
    ensures { result ≡ moved gain mean coeff }
{
    if mean <= gain {
        mean // raised-cosine attack
    } else {
        gain + (mean - gain) * coeff // release
    }
}

// Whether the gain becomes the mean as it stands: both within 0 and 1, and the mean at most the gain.
fn attacks(gain: f64, mean: f64) -> bool
    ensures { result ≡ attacks gain mean }
{
    unit(gain) & (unit(mean) & (mean <= gain))
}

// The gain after a frame whose mean is this.
pub fn follow(gain: f64, mean: f64, coeff: f64) -> f64
    ensures { result ≡ followed gain mean coeff }
{
    unit_gain(moved(unit_gain(gain), mean, coeff))
}

// The gain after each mean of a run, in the mean's place; the last one is handed back. In an attack
// the mean is the gain and stays where it is, so that a store stands in the other arm alone: with
// one in both, the two would be computed in every frame and the gain picked afterwards.
pub fn follow_all(gain: f64, coeff: f64, means: &mut [f64]) -> f64
    ensures { follows_at means.new result ≡ followed_all coeff gain means.old }
{
    let mut g = gain;
    for mean in means.iter_mut() {
        let m = *mean;
        if attacks(g, m) {
            g = m;
        } else {
            g = follow(g, m, coeff);
            *mean = g;
        }
    }
    g
}
