// Declared metadata of one parameter (param.rs), and validate_param_info of driver.rs.
ghost use Rattle.std.specs.Prelude.{◌≡◌};
ghost use Rattle.arithmetic.specs.Number.{within};
ghost use Rattle.bank.specs.Param.{range_holds, time_holds, param_reply};
ghost use Rattle.bank.specs.Answers.{set_up_reply};

use arithmetic::number::is_finite;

// How a value ramps toward a new target.
#[derive(Clone, Copy, Debug, PartialEq, Eq)]
pub enum Smoothing {
    Step,
    Linear,
    OnePole,
}

#[derive(Clone, Copy)]
pub struct ParamInfo {
    pub id: u32,
    pub low: f64,
    pub high: f64,
    pub default: f64,
    pub smoothing_ms: f64,
    pub smoothing: Smoothing,
}

// Why a setup is refused: 1, and 2 to 6 with the index of the parameter.
#[derive(Clone, Copy, Debug, PartialEq, Eq)]
pub enum BankRefusal {
    TooMany,
    Id(usize),
    Range(usize),
    DefaultNotFinite(usize),
    DefaultOutside(usize),
    SmoothingTime(usize),
}

fn range_holds(low: f64, high: f64) -> bool
    ensures { result ≡ range_holds low high }
{
    is_finite(low) && is_finite(high) && low <= high
}

fn default_holds(low: f64, high: f64, x: f64) -> bool
    ensures { result ≡ within low high x }
{
    low <= x && x <= high
}

fn time_holds(ms: f64) -> bool
    ensures { result ≡ time_holds ms }
{
    is_finite(ms) && ms > 0.0 && ms <= 10000.0
}

impl ParamInfo {
    // 2 to 6, in the table's order.
    #[tactic(auto, unfolding(crate::specs::Param::param_reply, crate::specs::Param::fault_of))]
    pub fn validate(self, index: usize) -> Result<(), BankRefusal>
        ensures { set_up_reply result ≡ param_reply index self }
    {
        if self.id as usize != index {
            return Err(BankRefusal::Id(index));
        }
        if !range_holds(self.low, self.high) {
            return Err(BankRefusal::Range(index));
        }
        if !is_finite(self.default) {
            return Err(BankRefusal::DefaultNotFinite(index));
        }
        if !default_holds(self.low, self.high, self.default) {
            return Err(BankRefusal::DefaultOutside(index));
        }
        if !time_holds(self.smoothing_ms) {
            return Err(BankRefusal::SmoothingTime(index));
        }
        Ok(())
    }
}
