// Look and release coefficient, in the Rust's order of operations (`prepare` of limiter.rs).
ghost use Rattle.std.specs.Prelude.{◌≡◌, true};
ghost use Rattle.arithmetic.specs.Number.{frames_of_ms};
ghost use Rattle.settings.specs.Derived.{look_of, coefficient_of};
ghost use Rattle.settings.specs.Accepted.{rate_taken, release_taken};

// Milliseconds as frames.
fn frames(ms: f64, rate: u32) -> f64
    ensures { result ≡ frames_of_ms ms rate }
{
    ms * 1e-3 * (rate as f64)
}

// The lookahead in frames, rounded, at least 1.
pub fn look(lookahead_ms: f64, rate: u32) -> u64
    ensures { result ≡ look_of lookahead_ms rate }
{
    arithmetic::number::round(frames(lookahead_ms, rate)).max(1)
}

// How much of the way to a higher mean the gain goes in a frame.
pub fn release_coeff(release_ms: f64, rate: u32) -> f64
    requires release_taken { release_taken release_ms ≡ true }
    requires rate_taken { rate_taken rate ≡ true }
    ensures { result ≡ coefficient_of release_ms rate }
{
    let rel = frames(release_ms, rate);
    if rel == 0.0 {
        return 1.0;
    }
    1.0 - arithmetic::math::exp(-1.0 / rel).unwrap_or(1.0)
}
