// The bank (driver.rs: SmootherBank). A call that is refused leaves it as it was.
ghost use Rattle.std.specs.Prelude.{◌≡◌, true, take, is_ok};
ghost use Rattle.bank.specs.Answers.{set_up_reply, param_set_reply, bank_step_reply, bank_value_reply};
ghost use Rattle.std.specs.List.{list_all, enumerate_from};
ghost use Rattle.bank.specs.Smoother.{slot_prepared, stepped};
ghost use Rattle.bank.specs.Bank.{declared_reply, slots_of, unset, all_prepared, prepared, slot_at, all_changed, one_changed};
ghost use Rattle.bank.specs.Bank.{call_reply, call_of, turn_reply, turn_of, set_up_of, set_target_of, set_immediate_of, step_of, reset_of, value_of};
ghost use Rattle.bank.specs.Bank.{Computes, set_up_at, param_set_at, bank_stepped_at};

use crate::param::{BankRefusal, ParamInfo};
use crate::smoother::Smoother;
use arithmetic::number::is_finite;

// Slots at and past the count are carried and never read. `ready` tells a bank of no parameters from
// one that was never set up.
// Slots, count and flag lie side by side: memory is fixed, and `prepared` judges all three of any bytes, so none is an Option.
#[derive(Clone, Copy)]
pub struct SmootherBank {
    pub smoothers: [Smoother; 8],
    pub count: usize,
    pub rate: u32,
    pub ready: bool,
}

// Why a call for the whole bank is refused: 18.
#[derive(Clone, Copy, Debug, PartialEq, Eq)]
pub struct NotSetUp;

// Why a parameter call is refused: 18, 23 with the id and the offending value, 24.
#[derive(Clone, Copy, Debug, PartialEq)]
pub enum ParamRefusal {
    NotSetUp,
    NonFiniteValue { param: u32, value: f64 },
    UnknownParam,
}

impl From<NotSetUp> for ParamRefusal {
    ghost use Rattle.bank.specs.declared.smoother_bank.ParamRefusal.{ParamRefusal};

    ghost from_gives = { λ _ e. e ≡ ParamRefusal.NotSetUp };

    fn from(_why: NotSetUp) -> ParamRefusal {
        ParamRefusal::NotSetUp
    }
}

// 1, then 2 to 6 of the first parameter that fails, with its index.
#[tactic(auto, using(crate::proofs::Slots::fault_here, crate::proofs::Slots::fault_more, crate::proofs::Slots::fault_end), unfolding(crate::specs::Bank::declared_reply))]
fn validate_param_info(params: [ParamInfo; 8], count: usize) -> Result<(), BankRefusal>
    ensures { set_up_reply result ≡ declared_reply params count }
{
    if count > 8 {
        return Err(BankRefusal::TooMany);
    }
    for (i, p) in params[..count].iter().enumerate() {
        p.validate(i)?;
    }
    Ok(())
}

// A smoother for each of the first parameters.
#[tactic(auto, using(crate::proofs::Slots::slots_none, crate::proofs::Slots::slots_more, crate::proofs::Slots::slots_past))]
fn slots_of(params: [ParamInfo; 8], count: usize, rate: u32) -> [Smoother; 8]
    ensures { result ≡ slots_of rate count params }
{
    let mut slots = [Smoother::vacant(); 8];
    for i in 0..count.min(8) {
        slots[i] = Smoother::new(params[i], rate);
    }
    slots
}

// The smoothers are what 18 asks, each at its index.
fn all_prepared(smoothers: &[Smoother], rate: u32) -> bool
    ensures { result ≡ list_all (λ p. slot_prepared rate p.0 p.1) (enumerate_from 0 smoothers.now) }
{
    smoothers
        .iter()
        .enumerate()
        .all(|(i, s)| s.is_prepared(i, rate))
}

impl SmootherBank {
    // The bank that was never set up.
    pub fn unset() -> SmootherBank
        ensures { result ≡ unset }
    {
        SmootherBank {
            smoothers: [Smoother::vacant(); 8],
            count: 0,
            rate: 0,
            ready: false,
        }
    }

    // Setup: a bank for the first `count` declarations, any rate.
    // An array and a count, no slice: `set_up_of` answers 1 of a count past the eight, and keeps eight slots.
    #[tactic(auto, using(crate::proofs::Calls::set_up_refused), unfolding(crate::specs::Bank::set_up_of))]
    pub fn try_new(
        params: [ParamInfo; 8],
        count: usize,
        rate: u32,
    ) -> Result<SmootherBank, BankRefusal>
        ensures { set_up_at result ≡ set_up_of params count rate }
    {
        validate_param_info(params, count)?;
        Ok(SmootherBank {
            smoothers: slots_of(params, count, rate),
            count,
            rate,
            ready: true,
        })
    }

    // 18: set up, with settings that pass 1 to 6 and the derived values that are theirs.
    #[tactic(auto, using(crate::proofs::Slots::each_prepared), unfolding(crate::specs::Bank::prepared))]
    pub fn is_prepared(&self) -> bool
        ensures { result ≡ prepared self.now }
    {
        self.ready && self.count <= 8 && all_prepared(&self.smoothers[..self.count], self.rate)
    }

    // What a call for the whole bank refuses: 18.
    fn must_be_prepared(&self) -> Result<(), NotSetUp>
        ensures { is_ok result ≡ prepared self.now }
    {
        if self.is_prepared() {
            Ok(())
        } else {
            Err(NotSetUp)
        }
    }

    // A change of every parameter, with no check.
    pub fn apply_all<F: Fn(Smoother) -> Smoother>(&mut self, change: F)
        requires { F.IsAlwaysCallable change }
        ensures { (f : Smoother → Smoother) → Computes (F.post change) f → self.new ≡ all_changed f self.old }
    {
        let n = self.count.min(8);
        for s in &mut self.smoothers[..n] {
            *s = change(*s);
        }
    }

    // Where it answers true, a step changes nothing: a bank of one parameter at rest. It may answer
    // false of others.
    #[tactic(auto, using(crate::proofs::Still::bank_stands))]
    pub fn is_still(&self) -> bool
        ensures { result ≡ true → all_changed stepped self.now ≡ self.now }
    {
        (self.count == 1) & self.smoothers[0].is_still()
    }

    // A change of the parameter at an index, with no check.
    pub fn apply_at<F: Fn(Smoother) -> Smoother>(&mut self, index: usize, change: F)
        requires { F.IsAlwaysCallable change }
        ensures { (f : Smoother → Smoother) → Computes (F.post change) f → self.new ≡ one_changed f index self.old }
    {
        if index < 8 {
            self.smoothers[index] = change(self.smoothers[index]);
        }
    }

    // The value of the parameter at an index, with no check.
    pub fn value_at(&self, index: usize) -> f64
        ensures { result ≡ (slot_at index self.now.smoothers).cur }
    {
        self.smoothers.get(index).map_or(0.0, |s| s.cur)
    }

    // What a parameter call refuses: 18, 23 with the id and the offending value, 24. By 18 a
    // parameter's id is its index.
    #[tactic(auto, unfolding(crate::specs::Bank::call_reply))]
    fn judge(&self, id: u32, value: f64) -> Result<(), ParamRefusal>
        ensures { param_set_reply result ≡ call_reply self.now id value }
    {
        self.must_be_prepared()?;
        if !is_finite(value) {
            return Err(ParamRefusal::NonFiniteValue { param: id, value });
        }
        if id as usize >= self.count {
            return Err(ParamRefusal::UnknownParam);
        }
        Ok(())
    }

    // A parameter call: refused, or the change of the one parameter.
    #[tactic(auto, unfolding(crate::specs::Bank::call_of))]
    fn call<F: Fn(Smoother) -> Smoother>(
        &mut self,
        id: u32,
        value: f64,
        change: F,
    ) -> Result<(), ParamRefusal>
        requires { F.IsAlwaysCallable change }
        ensures { (f : Smoother → Smoother) → Computes (F.post change) f → param_set_at result self.new ≡ call_of f self.old id value }
    {
        self.judge(id, value)?;
        self.apply_at(id as usize, change);
        Ok(())
    }

    // A call for the whole bank: refused, or the change of every parameter.
    #[tactic(auto, unfolding(crate::specs::Bank::turn_of, crate::specs::Bank::turn_reply))]
    fn turn<F: Fn(Smoother) -> Smoother>(&mut self, change: F) -> Result<(), NotSetUp>
        requires { F.IsAlwaysCallable change }
        ensures { (f : Smoother → Smoother) → Computes (F.post change) f → bank_stepped_at result self.new ≡ turn_of f self.old }
    {
        self.must_be_prepared()?;
        self.apply_all(change);
        Ok(())
    }

    // Sets a parameter's target, kept within its range.
    pub fn set_target(&mut self, id: u32, value: f64) -> Result<(), ParamRefusal>
        ensures { param_set_at result self.new ≡ set_target_of self.old id value }
    {
        self.call(id, value, |s| s.set_target(value))
    }

    // Sets a parameter's value and target at once, with no ramp.
    pub fn set_immediate(&mut self, id: u32, value: f64) -> Result<(), ParamRefusal>
        ensures { param_set_at result self.new ≡ set_immediate_of self.old id value }
    {
        self.call(id, value, |s| s.set_immediate(value))
    }

    // Advances every smoother one update.
    pub fn step(&mut self) -> Result<(), NotSetUp>
        ensures { bank_stepped_at result self.new ≡ step_of self.old }
    {
        self.turn(|s| s.step())
    }

    // Returns every smoother to its default.
    pub fn reset(&mut self) -> Result<(), NotSetUp>
        ensures { bank_stepped_at result self.new ≡ reset_of self.old }
    {
        self.turn(|s| s.reset())
    }

    // The present value of a parameter.
    #[tactic(auto, unfolding(crate::specs::Bank::value_of))]
    pub fn value(&self, id: u32) -> Result<f64, ParamRefusal>
        ensures { bank_value_reply result ≡ value_of self.now id }
    {
        self.must_be_prepared()?;
        if id as usize >= self.count {
            return Err(ParamRefusal::UnknownParam);
        }
        Ok(self.value_at(id as usize))
    }
}
