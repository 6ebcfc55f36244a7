// One parameter's smoother: a value that goes toward its target once per 32 frames. All of it is
// total, so that a caller that has checked its bank pays for no further test.
ghost use Rattle.std.specs.Prelude.{◌≡◌, true};
ghost use Rattle.std.specs.Float.Ieee.{le};
ghost use Rattle.arithmetic.specs.Number.{one};
ghost use Rattle.bank.specs.Smoother.{steps_of, coeff_of, smoother_of, info_of, derived, slot_prepared, vacant};
ghost use Rattle.bank.specs.Smoother.{target_set, immediate_set, moved, linear_moved, stepped, reset_one};

use crate::param::{ParamInfo, Smoothing};
use arithmetic::math::exp;
use arithmetic::number::{abs, ceil, clamp, copysign, is_finite, max};
use arithmetic::pattern::same_value;
use arithmetic::sanitize::finite_or_zero;

// The bank advances one step per this many frames.
const CR_STEP: f64 = 32.0;

#[derive(Clone, Copy)]
pub struct Smoother {
    pub id: u32,
    pub cur: f64,
    pub target: f64,
    pub low: f64,
    pub high: f64,
    pub default: f64,
    pub steps: f64,
    pub updates_remaining: u64,
    pub step_delta: f64,
    pub shape: Smoothing,
    pub coeff: f64,
    pub smoothing_ms: f64,
}

// How many updates lie in the smoothing time, at least 1.
fn steps_of(ms: f64, rate: u32) -> f64
    ensures { result ≡ steps_of ms rate }
{
    max(ms * 1e-3 * (rate as f64) / CR_STEP, 1.0)
}

// How far OnePole goes in one update. An argument of `exp` from −1 to 0 is never refused.
fn coeff_of(shape: Smoothing, steps: f64) -> f64
    requires { le one steps ≡ true }
    ensures { result ≡ coeff_of shape steps }
{
    match shape {
        Smoothing::Step => 1.0,
        Smoothing::Linear => 1.0,
        Smoothing::OnePole => 1.0 - exp(-1.0 / steps).unwrap_or(0.0),
    }
}

impl Smoother {
    // A smoother at its default. The default lies within the range, so the Rust's clamp of it changes
    // nothing.
    #[tactic(auto, using(crate::proofs::Domain::steps_least), unfolding(crate::specs::Smoother::smoother_of))]
    pub fn new(p: ParamInfo, rate: u32) -> Smoother
        ensures { result ≡ smoother_of rate p }
    {
        let steps = steps_of(p.smoothing_ms, rate);
        Smoother {
            id: p.id,
            cur: p.default,
            target: p.default,
            low: p.low,
            high: p.high,
            default: p.default,
            steps,
            updates_remaining: 0,
            step_delta: 0.0,
            shape: p.smoothing,
            coeff: coeff_of(p.smoothing, steps),
            smoothing_ms: p.smoothing_ms,
        }
    }

    // The smoother of a slot that holds no parameter.
    pub fn vacant() -> Smoother
        ensures { result ≡ vacant }
    {
        Smoother {
            id: 0,
            cur: 0.0,
            target: 0.0,
            low: 0.0,
            high: 0.0,
            default: 0.0,
            steps: 0.0,
            updates_remaining: 0,
            step_delta: 0.0,
            shape: Smoothing::Step,
            coeff: 0.0,
            smoothing_ms: 0.0,
        }
    }

    // The declaration that this smoother keeps.
    pub fn info(self) -> ParamInfo
        ensures { result ≡ info_of self }
    {
        ParamInfo {
            id: self.id,
            low: self.low,
            high: self.high,
            default: self.default,
            smoothing_ms: self.smoothing_ms,
            smoothing: self.shape,
        }
    }

    // The stored derived values are those that the settings give.
    #[tactic(auto, using(crate::proofs::Domain::steps_least), unfolding(crate::specs::Smoother::derived))]
    fn is_derived(self, rate: u32) -> bool
        ensures { result ≡ derived rate self }
    {
        let steps = steps_of(self.smoothing_ms, rate);
        same_value(self.steps, steps) && same_value(self.coeff, coeff_of(self.shape, steps))
    }

    // What 18 asks of the smoother at an index: 2 to 6, and the derived values.
    #[tactic(auto, unfolding(crate::specs::Smoother::slot_prepared, crate::specs::Param::param_reply))]
    pub fn is_prepared(self, index: usize, rate: u32) -> bool
        ensures { result ≡ slot_prepared rate index self }
    {
        self.info().validate(index).is_ok() && self.is_derived(rate)
    }

    // Sets the target, kept within the range. A target that equals the present one restarts nothing.
    #[tactic(auto, unfolding(crate::specs::Smoother::target_set))]
    pub fn set_target(mut self, value: f64) -> Smoother
        ensures { result ≡ target_set value self }
    {
        let target = clamp(value, self.low, self.high);
        if target == self.target {
            return self;
        }
        self.target = target;
        if self.shape == Smoothing::Linear {
            self.updates_remaining = ceil(self.steps);
            self.step_delta = abs(self.target - self.cur) / self.steps;
        }
        self
    }

    // Sets the value and the target at once, with no ramp.
    #[tactic(auto, unfolding(crate::specs::Smoother::immediate_set))]
    pub fn set_immediate(mut self, value: f64) -> Smoother
        ensures { result ≡ immediate_set value self }
    {
        let v = clamp(value, self.low, self.high);
        self.cur = v;
        self.target = v;
        self.updates_remaining = 0;
        self
    }

    // Back to the default. The step size stays, as in the Rust.
    #[tactic(auto, unfolding(crate::specs::Smoother::reset_one))]
    pub fn reset(mut self) -> Smoother
        ensures { result ≡ reset_one self }
    {
        self.cur = self.default;
        self.target = self.default;
        self.updates_remaining = 0;
        self
    }

    // A Linear update: the last one lands on the target.
    fn linear_moved(mut self) -> Smoother
        ensures { result ≡ linear_moved self }
    {
        if self.cur == self.target {
            self.updates_remaining = 0;
            return self;
        }
        if self.updates_remaining <= 1 {
            self.cur = self.target;
            self.updates_remaining = 0;
            return self;
        }
        let d = self.target - self.cur;
        self.cur += copysign(self.step_delta, d);
        self.updates_remaining -= 1;
        self
    }

    // An update by shape, not yet sanitized.
    fn moved(mut self) -> Smoother
        ensures { result ≡ moved self }
    {
        match self.shape {
            Smoothing::Step => {
                self.cur = self.target;
                self
            }
            Smoothing::Linear => self.linear_moved(),
            Smoothing::OnePole => {
                self.cur += (self.target - self.cur) * self.coeff;
                self
            }
        }
    }

    // One update: the value goes toward its target and is kept finite and within the range.
    #[tactic(auto, unfolding(crate::specs::Smoother::stepped))]
    pub fn step(self) -> Smoother
        ensures { result ≡ stepped self }
    {
        let mut s = self.moved();
        s.cur = clamp(finite_or_zero(s.cur), s.low, s.high);
        s
    }

    // Where it answers true, a step changes nothing: a Linear value at its target, finite and within
    // its range. It may answer false of others.
    #[tactic(auto, using(crate::proofs::Still::linear_rests))]
    pub fn is_still(self) -> bool
        ensures { result ≡ true → stepped self ≡ self }
    {
        let stands = (self.cur == self.target) & (self.updates_remaining == 0);
        let inside = !(self.cur < self.low) & !(self.cur > self.high);
        (self.shape == Smoothing::Linear) & stands & inside & is_finite(self.cur)
    }
}
