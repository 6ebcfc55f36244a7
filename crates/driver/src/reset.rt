// Reset: the starting values again, the bank's too.
ghost use Rattle.std.specs.Prelude.{◌≡◌};
ghost use Rattle.limiter.specs.Stores.{stores_at};
ghost use Rattle.driver.specs.Calls.{reset_of};
ghost use Rattle.driver.specs.Answers.{machine_at, called_at};

use crate::answers::Refusal;
use crate::state::KernelProcessor;

impl KernelProcessor {
    // Restores the starting values; marks and minima stay as they are, whatever they hold. The stores are not handed
    // on as one (`Lent`): two that a block may write are only read here.
    pub fn reset(
        &mut self,
        delay: &mut [f64],
        marks: &[u64],
        minima: &[f64],
        weights: &[f64],
        row: &mut [f64],
        detector: &mut [f64],
    ) -> Result<(), Refusal>
        ensures { called_at result self.new (stores_at delay.new marks.now minima.now weights.now row.new detector.new)
            ≡ reset_of (machine_at self.old (stores_at delay.old marks.now minima.now weights.now row.old detector.old)) }
    {
        self.judge_reset(delay, marks, minima, weights, row, detector)?;
        self.limiter = self.limiter.reset_prepared(delay, row, detector);
        self.bank.apply_all(|s| s.reset());
        Ok(())
    }
}
