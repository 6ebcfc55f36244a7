// 18, 16 and 19 of the whole machine, in the table's order.
ghost use Rattle.std.specs.Prelude.{◌≡◌};
ghost use Rattle.arithmetic.specs.Number.{within};
ghost use Rattle.arithmetic.specs.Reply.{numbered};
ghost use Rattle.limiter.specs.Stores.{stores_at};
ghost use Rattle.bank.specs.Bank.{slot_at};
ghost use Rattle.bank.specs.declared.smoother_bank.SmootherBank.{SmootherBank};
ghost use Rattle.turns.specs.Machine.{machine_of, declares, prepared, ready_refusal, reset_refusal};
ghost use Rattle.driver.specs.Answers.{machine_at, answer_reply};
ghost use Rattle.driver.specs.Parts.{shown_of};

use crate::answers::Refusal;
use crate::state::{KernelProcessor, Threshold};
use arithmetic::pattern::same_value;
use bank::param::Smoothing;
use bank::smoother::Smoother;
use bank::smoother_bank::SmootherBank;
use limiter::state::Limiter;
use limiter::stores::lengths_of;
use settings::LimiterSettings;

// Whether a smoother declares the threshold of these settings.
fn declares(s: LimiterSettings, p: Smoother) -> bool
    ensures { result ≡ declares s p }
{
    let low = same_value(p.low, -30.0);
    let high = same_value(p.high, 0.0);
    let default = same_value(p.default, s.threshold_db);
    let time = same_value(p.smoothing_ms, 5.0);
    low & (high & (default & (time & (p.shape == Smoothing::Linear))))
}

// The threshold's smoother: the first slot.
pub fn threshold(smoothers: [Smoother; 8]) -> Smoother
    ensures { result ≡ slot_at 0 smoothers }
{
    smoothers[0]
}

// What a bank shows of itself.
pub fn shown(b: SmootherBank) -> Threshold
    ensures { result ≡ shown_of b }
{
    let slots = b.smoothers;
    let smoother = threshold(slots);
    Threshold {
        smoother,
        count: b.count,
        rate: b.rate,
        ready: b.ready,
    }
}

// A smoother's target lies within its range.
pub fn target_in_range(p: Smoother) -> bool
    ensures { result ≡ within p.low p.high p.target }
{
    (p.low <= p.target) & (p.target <= p.high)
}

// 18: the kernel's share, the bank's, and a bank of the one parameter that the settings declare.
fn is_set_up(l: Limiter, t: Threshold) -> bool
    ensures { (b : SmootherBank) → shown_of b ≡ t → result ≡ prepared l b }
{
    let p = t.smoother;
    let s = l.settings;
    let kernel = l.is_prepared();
    // of one parameter, so that the other slots are not walked
    let own = t.ready & p.is_prepared(0, t.rate);
    let declared = declares(s, p);
    kernel & (own & ((t.count == 1) & ((t.rate == l.rate) & declared)))
}

// 18, then 16, then 19, of a limiter and what its bank shows.
pub fn judge(
    l: Limiter,
    t: Threshold,
    delay: &[f64],
    marks: &[u64],
    minima: &[f64],
    weights: &[f64],
    row: &[f64],
    detector: &[f64],
) -> Result<(), Refusal>
    ensures { (b : SmootherBank) → shown_of b ≡ t
        → answer_reply result ≡ numbered (ready_refusal (machine_of l b (stores_at delay.now marks.now minima.now weights.now row.now detector.now))) }
{
    if !is_set_up(l, t) {
        return Err(Refusal::NotSetUp);
    }
    let lengths = lengths_of(delay, marks, minima, weights, row, detector);
    if !l.stores_fit(lengths) {
        return Err(Refusal::StoreLength);
    }
    let p = t.smoother;
    let kernel = l.in_order(marks, minima, row);
    if kernel & target_in_range(p) {
        Ok(())
    } else {
        Err(Refusal::OutOfOrder)
    }
}

impl KernelProcessor {
    // 18.
    pub fn is_prepared(&self) -> bool
        ensures { result ≡ prepared self.now.limiter self.now.bank }
    {
        is_set_up(self.limiter, shown(self.bank))
    }

    // 18, then 16.
    pub fn judge_reset(
        &self,
        delay: &[f64],
        marks: &[u64],
        minima: &[f64],
        weights: &[f64],
        row: &[f64],
        detector: &[f64],
    ) -> Result<(), Refusal>
        ensures { answer_reply result ≡ numbered (reset_refusal (machine_at self.now (stores_at delay.now marks.now minima.now weights.now row.now detector.now))) }
    {
        if !self.is_prepared() {
            return Err(Refusal::NotSetUp);
        }
        let l = self.limiter;
        let lengths = lengths_of(delay, marks, minima, weights, row, detector);
        if l.stores_fit(lengths) {
            Ok(())
        } else {
            Err(Refusal::StoreLength)
        }
    }
}
