// A drain: the checks, then runs of silence (driver.rs: `flush` of KernelProcessor; limiter.rs: `flush`).
ghost use Rattle.std.specs.Prelude.{◌≡◌, true, ◌≤◌};
ghost use Rattle.limiter.specs.Order.{prepared};
ghost use Rattle.frame.specs.Lent.{Stays};
ghost use Rattle.limiter.specs.Stores.{Stores, stores_in};
ghost use Rattle.turns.specs.Drain.{tail_reply, drain_reply, drainable, drain_of};
ghost use Rattle.driver.specs.Answers.{machine_at, answer_reply, flushed_at, seen};

use crate::answers::{Flushed, Refusal};
use crate::ready::{judge, shown};
use crate::state::KernelProcessor;
use audio::format::{Format, size_of};
use frame::stores::Lent;
use limiter::state::Limiter;
use turns::drain::drain_frames;

// The frames of the tail that a drain writes.
fn drainable(limiter: Limiter, frames: usize) -> usize
    requires { limiter.drained ≤ limiter.env.keeper.look }
    ensures { result ≡ drainable limiter frames }
{
    frames.min(limiter.env.keeper.look - limiter.drained)
}

impl KernelProcessor {
    // 20, then 22, for a limiter that is set up. No store is read.
    fn judge_tail(&self, frames: usize, size: usize) -> Result<(), Refusal>
        requires { prepared self.now.limiter ≡ true }
        ensures { (s : Stores) → answer_reply result ≡ tail_reply (machine_at self.now s) frames size }
    {
        let l = self.limiter;
        if frames > 65536 {
            return Err(Refusal::Geometry);
        }
        if size != l.channels * frames {
            return Err(Refusal::Geometry);
        }
        if l.env.keeper.frame <= 1099511627776 - frames as u64 {
            Ok(())
        } else {
            Err(Refusal::TooFar)
        }
    }

    // What a drain answers, before anything is written.
    fn judge_drain(&self, frames: usize, size: usize, lent: &Lent) -> Result<(), Refusal>
        ensures { answer_reply result ≡ drain_reply (machine_at self.now (stores_in lent.now)) frames size }
    {
        judge(
            self.limiter,
            shown(self.bank),
            lent.delay,
            lent.marks,
            lent.minima,
            lent.weights,
            lent.row,
            lent.detector,
        )?;
        self.judge_tail(frames, size)
    }

    // A drain of so many frames a channel, planar: how many it wrote, and whether the tail is done. A refused
    // one changes nothing.
    pub fn flush(
        &mut self,
        format: Format,
        frames: usize,
        audio: &mut [u8],
        lent: &mut Lent,
    ) -> Result<Flushed, Refusal>
        ensures stays { Stays lent.old lent.new }
        ensures left { flushed_at result self.new (stores_in lent.new) audio.new
            ≡ seen (drain_of format (machine_at self.old (stores_in lent.old)) frames audio.old) }
    {
        let size = size_of(format, audio);
        self.judge_drain(frames, size, lent)?;
        let limiter = self.limiter;
        let written = drainable(limiter, frames);
        let done = limiter.env.keeper.look <= limiter.drained + written;
        self.limiter = drain_frames(limiter, format, written, frames, audio, lent);
        Ok(Flushed { written, done })
    }
}
