// The level, as a plain factor of full scale, that no peak is to pass (`render` and
// `reset_flush_state` of limiter.rs).
ghost use Rattle.std.specs.Prelude.{◌≡◌};
ghost use Rattle.settings.specs.Target.{kept, target_of};

const LN_10: f64 = 2.302585092994046;

// An argument above 0 or NaN counts as 0, one below −700 as −700.
fn kept_argument(a: f64) -> f64
    ensures { result ≡ kept a }
{
    if a < -700.0 {
        return -700.0;
    }
    if a <= 0.0 { a } else { 0.0 }
}

// The target of a threshold in decibels, for any threshold: a parameter's value isn't judged.
pub fn target(threshold_db: f64, margin_db: f64) -> f64
    ensures { result ≡ target_of threshold_db margin_db }
{
    let a = kept_argument((threshold_db - margin_db) * (LN_10 / 20.0));
    arithmetic::math::exp(a).unwrap_or(0.0)
}
