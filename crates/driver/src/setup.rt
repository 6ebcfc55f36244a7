// Setup: the bank of the one parameter, its bytes, then the limiter with the rest of the cap.
ghost use Rattle.std.specs.Prelude.{◌≡◌, replicate};
ghost use Rattle.limiter.specs.State.{not_set_up};
ghost use Rattle.limiter.specs.Stores.{Stores, stores_at};
ghost use Rattle.bank.specs.Bank;
ghost use Rattle.bank.specs.Bank.{unset, set_up_of};
ghost use Rattle.turns.specs.Machine.{machine_of, threshold_param};
ghost use Rattle.driver.specs.Calls.{with_rest, setup_of};
ghost use Rattle.driver.specs.Answers.{machine_at, set_up_at};

use crate::answers::SetupRefusal;
use crate::state::KernelProcessor;
use bank::param::{BankRefusal, ParamInfo, Smoothing};
use bank::smoother_bank::SmootherBank;
use limiter::state::Limiter;
use settings::memory::{judge_cap, left_of};
use settings::{LimiterSettings, ProcessSpec};

// The limiter's threshold: Linear, 5 ms, −30 to 0, by default the settings' own.
fn threshold_param(s: LimiterSettings) -> ParamInfo
    ensures { result ≡ threshold_param s }
{
    ParamInfo {
        id: 0,
        low: -30.0,
        high: 0.0,
        default: s.threshold_db,
        smoothing_ms: 5.0,
        smoothing: Smoothing::Linear,
    }
}

// The bank: of eight declarations it takes the first.
fn bank_of(s: LimiterSettings, rate: u32) -> Result<SmootherBank, BankRefusal>
    ensures { Bank.set_up_at result ≡ set_up_of (replicate 8 (threshold_param s)) 1 rate }
{
    let p = threshold_param(s);
    SmootherBank::try_new([p; 8], 1, rate)
}

// "The bank's bytes are taken first; the limiter's cap is the rest."
fn with_rest(spec: ProcessSpec) -> ProcessSpec
    ensures { result ≡ with_rest spec }
{
    ProcessSpec {
        cap: left_of(80, spec.cap),
        ..spec
    }
}

impl KernelProcessor {
    // One that every call but setup refuses.
    pub fn not_set_up() -> KernelProcessor
        ensures { (stores : Stores) → machine_at result stores ≡ machine_of not_set_up unset stores }
    {
        let limiter = Limiter::not_set_up();
        let bank = SmootherBank::unset();
        KernelProcessor { limiter, bank }
    }

    // Sets a limiter up on lent stores: nothing is written unless nothing is refused. They are not handed on as one
    // (`Lent`): the weights, which a block only reads, may be written here.
    pub fn prepare(
        s: LimiterSettings,
        spec: ProcessSpec,
        delay: &mut [f64],
        marks: &mut [u64],
        minima: &mut [f64],
        weights: &mut [f64],
        row: &mut [f64],
        detector: &mut [f64],
    ) -> Result<KernelProcessor, SetupRefusal>
        ensures { set_up_at result (stores_at delay.new marks.new minima.new weights.new row.new detector.new)
            ≡ setup_of s spec (stores_at delay.old marks.old minima.old weights.old row.old detector.old) }
    {
        let bank = bank_of(s, spec.rate)?;
        judge_cap(80, spec.cap)?;
        let limiter = Limiter::prepare(
            s,
            with_rest(spec),
            delay,
            marks,
            minima,
            weights,
            row,
            detector,
        )?;
        Ok(KernelProcessor { limiter, bank })
    }
}
