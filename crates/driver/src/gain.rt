// The lone gain step: one required gain through the floor keeper, the attack row and the release.
ghost use Rattle.limiter.specs.Stores.{stores_at};
ghost use Rattle.std.specs.Prelude.{◌≡◌, List, ℕ, ◌≤◌, Float};
ghost use Rattle.envelope.specs.Step.{gain_step_at};
ghost use Rattle.arithmetic.specs.Reply.{numbered};
ghost use Rattle.limiter.specs.Run.{moved_on};
ghost use Rattle.driver.specs.Calls.{gain_fits, gain_reply, gain_told, gain_step};
ghost use Rattle.driver.specs.Answers.{machine_at, answer_reply, stepped_reply, gain_stepped_at};

use crate::answers::{GainStepped, Refusal};
use crate::ready::{target_in_range, threshold};
use crate::state::KernelProcessor;
use envelope::env::{Envelope, GainStep};
use frame::gains::gain_steps;
use limiter::state::Limiter;
use settings::memory::row_len;

// 16 of the four stores that a gain step is lent; of a keeper alone it is `keeper`'s, of all six the limiter's.
fn stores_fit(l: Limiter, marks: &[u64], minima: &[f64], weights: &[f64], row: &[f64]) -> bool
    requires { l.env.keeper.look ≤ 4096 }
    ensures { (delay detector : List Float) → result
        ≡ gain_fits l (stores_at delay marks.now minima.now weights.now row.now detector) }
{
    let look = l.env.keeper.look;
    let n = row_len(look);
    (marks.len() == look + 1) & (minima.len() == look + 1) & (weights.len() == n) & (row.len() == n)
}

// What a finished step tells.
fn told(g: GainStep) -> GainStepped
    ensures { (marks : List ℕ) (minima row : List Float) → stepped_reply result ≡ gain_told (gain_step_at g marks minima row) }
{
    let e = g.env;
    GainStepped {
        floor: g.floor,
        dropped: g.dropped,
        kept: e.keeper.len,
        tally: e.attack.tally,
        mean: g.mean,
        gain: e.gain,
    }
}

// The limiter with another envelope.
fn with_env(l: Limiter, env: Envelope) -> Limiter
    ensures { result ≡ moved_on l env l.delay_pos l.target l.drained }
{
    Limiter { env, ..l }
}

impl KernelProcessor {
    // 18, then 16, then 19, then 22.
    fn judge_gain(
        &self,
        marks: &[u64],
        minima: &[f64],
        weights: &[f64],
        row: &[f64],
    ) -> Result<(), Refusal>
        ensures { (delay detector : List Float) → answer_reply result
            ≡ numbered (gain_reply (machine_at self.now (stores_at delay marks.now minima.now weights.now row.now detector))) }
    {
        if !self.is_prepared() {
            return Err(Refusal::NotSetUp);
        }
        let l = self.limiter;
        let b = self.bank;
        if !stores_fit(l, marks, minima, weights, row) {
            return Err(Refusal::StoreLength);
        }
        let kernel = l.in_order(marks, minima, row);
        let slots = b.smoothers;
        if !(kernel & target_in_range(threshold(slots))) {
            return Err(Refusal::OutOfOrder);
        }
        if l.env.keeper.frame < 1099511627776 {
            Ok(())
        } else {
            Err(Refusal::TooFar)
        }
    }

    // One gain step, of any f64. It is lent four of the six stores, so not all as one (`Lent`).
    pub fn step_env(
        &mut self,
        gain: f64,
        marks: &mut [u64],
        minima: &mut [f64],
        weights: &[f64],
        row: &mut [f64],
    ) -> Result<GainStepped, Refusal>
        ensures { (delay detector : List Float) → gain_stepped_at result self.new (stores_at delay marks.new minima.new weights.now row.new detector)
            ≡ gain_step (machine_at self.old (stores_at delay marks.old minima.old weights.now row.old detector)) gain }
    {
        self.judge_gain(marks, minima, weights, row)?;
        let l = self.limiter;
        let mut gains = [gain];
        let step = gain_steps(
            l.env,
            marks,
            minima,
            weights,
            row,
            l.release_coeff,
            &mut gains,
        );
        self.limiter = with_env(l, step.env);
        Ok(told(step))
    }
}
