// A block: the checks, then its turns (driver.rs: `process` of KernelProcessor).
ghost use Rattle.std.specs.Prelude.{◌≡◌, true};
ghost use Rattle.limiter.specs.Order.{prepared};
ghost use Rattle.frame.specs.Lent.{Stays};
ghost use Rattle.limiter.specs.Stores.{Stores, stores_at, stores_in};
ghost use Rattle.bank.specs.declared.smoother_bank.SmootherBank.{SmootherBank};
ghost use Rattle.turns.specs.Machine.{machine_of};
ghost use Rattle.turns.specs.Events.{events_of};
ghost use Rattle.turns.specs.Block.{call_reply, block_reply, block_of};
ghost use Rattle.driver.specs.Answers.{machine_at, answer_reply, processed_at, seen};
ghost use Rattle.driver.specs.Parts.{shown_of};

use crate::answers::{Processed, Refusal};
use crate::events::check_events;
use crate::ready::{judge, shown};
use crate::state::{KernelProcessor, Threshold};
use audio::format::{Format, size_of};
use frame::stores::Lent;
use limiter::state::Limiter;
use turns::drive::drive;

// 20, 21 and 22 in turn, for a limiter that is set up. Neither bank nor store is read.
fn judge_call(
    l: Limiter,
    position: u64,
    frames: usize,
    events: &[u64],
    size: usize,
) -> Result<(), Refusal>
    requires { prepared l ≡ true }
    ensures { (b : SmootherBank) (s : Stores) → answer_reply result
        ≡ call_reply (machine_of l b s) position frames (events_of events.now) size }
{
    if frames > l.max_block {
        return Err(Refusal::Geometry);
    }
    if size != l.channels * frames {
        return Err(Refusal::Geometry);
    }
    check_events(events, frames as u64)?;
    let room = 1099511627776 - frames as u64;
    if (position <= 4611686018427387904 - frames as u64) & (l.env.keeper.frame <= room) {
        Ok(())
    } else {
        Err(Refusal::TooFar)
    }
}

// What a block answers, before anything is written.
pub fn judge_block(
    l: Limiter,
    t: Threshold,
    position: u64,
    frames: usize,
    events: &[u64],
    size: usize,
    delay: &[f64],
    marks: &[u64],
    minima: &[f64],
    weights: &[f64],
    row: &[f64],
    detector: &[f64],
) -> Result<(), Refusal>
    ensures { (b : SmootherBank) → shown_of b ≡ t → answer_reply result
        ≡ block_reply (machine_of l b (stores_at delay.now marks.now minima.now weights.now row.now detector.now)) position frames (events_of events.now) size }
{
    judge(l, t, delay, marks, minima, weights, row, detector)?;
    judge_call(l, position, frames, events, size)
}

// The same of stores that are lent together.
pub fn judge_lent(
    l: Limiter,
    t: Threshold,
    position: u64,
    frames: usize,
    events: &[u64],
    size: usize,
    lent: &Lent,
) -> Result<(), Refusal>
    ensures { (b : SmootherBank) → shown_of b ≡ t → answer_reply result
        ≡ block_reply (machine_of l b (stores_in lent.now)) position frames (events_of events.now) size }
{
    judge_block(
        l,
        t,
        position,
        frames,
        events,
        size,
        lent.delay,
        lent.marks,
        lent.minima,
        lent.weights,
        lent.row,
        lent.detector,
    )
}

impl KernelProcessor {
    // A block of so many frames a channel, planar, that starts at an absolute position. A refused one
    // changes nothing.
    pub fn process(
        &mut self,
        format: Format,
        position: u64,
        frames: usize,
        events: &[u64],
        audio: &mut [u8],
        lent: &mut Lent,
    ) -> Result<Processed, Refusal>
        ensures stays { Stays lent.old lent.new }
        ensures left { processed_at result self.new (stores_in lent.new) audio.new
            ≡ seen (block_of format (machine_at self.old (stores_in lent.old)) position frames
            (events_of events.now) audio.old) }
    {
        let size = size_of(format, audio);
        let limiter = self.limiter;
        let bank = self.bank;
        judge_lent(limiter, shown(bank), position, frames, events, size, lent)?;
        let left = drive(
            limiter, bank, format, position, frames, events, audio, lent, true,
        );
        self.limiter = left.limiter;
        self.bank = left.bank;
        Ok(Processed {
            frame: left.frame,
            seat: left.seat,
        })
    }
}
