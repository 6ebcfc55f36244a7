// The parameter call and the reading of a value. Neither reads a store.
ghost use Rattle.std.specs.Prelude.{◌≡◌};
ghost use Rattle.limiter.specs.Stores.{Stores};
ghost use Rattle.bank.specs.Answers.{bank_value_reply};
ghost use Rattle.driver.specs.Calls.{parameter_of, read_of};
ghost use Rattle.driver.specs.Answers.{machine_at, param_called_at};

use crate::state::KernelProcessor;
use bank::smoother_bank::ParamRefusal;

impl KernelProcessor {
    // Sets a parameter's value and target at once, with no ramp. A refused call changes nothing.
    pub fn set_parameter_immediate(&mut self, id: u32, value: f64) -> Result<(), ParamRefusal>
        ensures { (stores : Stores) → param_called_at result self.new stores ≡ parameter_of (machine_at self.old stores) id value }
    {
        if !self.is_prepared() {
            return Err(ParamRefusal::NotSetUp);
        }
        self.bank.set_immediate(id, value)
    }

    // The present value of a parameter.
    pub fn value(&self, id: u32) -> Result<f64, ParamRefusal>
        ensures { bank_value_reply result ≡ read_of self.now.bank id }
    {
        self.bank.value(id)
    }
}
