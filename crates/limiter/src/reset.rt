// Reset (`reset` of limiter.rs).
ghost use Rattle.std.specs.Prelude.{◌≡◌, true, List, ℕ, Float};
ghost use Rattle.limiter.specs.Order.{prepared};
ghost use Rattle.limiter.specs.Stores.{stores_at};
ghost use Rattle.limiter.specs.Reset.{reset_at, reset_of};

use crate::state::Limiter;

impl Limiter {
    // The starting values again. Marks and minima are neither read nor written, whatever they hold.
    pub fn reset_prepared(self, delay: &mut [f64], row: &mut [f64], detector: &mut [f64]) -> Limiter
        requires { prepared self ≡ true }
        ensures { (marks : List ℕ) (minima weights : List Float) →
            reset_at result (stores_at delay.new marks minima weights row.new detector.new)
            ≡ reset_of self (stores_at delay.old marks minima weights row.old detector.old) }
    {
        delay.fill(0.0);
        row.fill(1.0);
        detector.fill(0.0);
        Limiter::started(self.settings, self.spec())
    }
}
