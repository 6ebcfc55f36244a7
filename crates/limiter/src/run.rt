// A run of up to 32 frames through the limiter (`render` and `flush` of limiter.rs). Its audio has 32
// places a channel, and each sample gives way to its output.
ghost use Rattle.std.specs.Prelude.{◌≡◌, ◌+◌, ◌≤◌};
ghost use Rattle.frame.specs.Rules.{rules_of};
ghost use Rattle.frame.specs.Run.{Sanitized};
ghost use Rattle.limiter.specs.Stores.{stores_in};
ghost use Rattle.frame.specs.Lent.{Stays};
ghost use Rattle.frame.specs.Place.{highest_from};
ghost use Rattle.limiter.specs.Run.{moved_on, KernelReady, ran_at, render_of, drain_of, peaks_in};

use crate::state::Limiter;
use audio::format::Format;
use frame::highest::{Highest, start_of};
use frame::render::{Rendered, Terms, render_run};
use frame::stores::Lent;

// What a run leaves beside audio and stores: the limiter, and the highest linked peak so far of its block.
#[derive(Clone, Copy)]
pub struct Moved {
    pub limiter: Limiter,
    pub highest: Highest,
}

impl Limiter {
    // The state after a run.
    fn moved_on(self, run: Rendered, target: f64, drained: usize) -> Limiter
        ensures { result ≡ moved_on self run.env run.pos target drained }
    {
        Limiter {
            env: run.env,
            delay_pos: run.pos,
            target,
            drained,
            ..self
        }
    }

    fn drained_to(mut self, drained: usize) -> Limiter
        ensures { result ≡ moved_on self self.env self.delay_pos self.target drained }
    {
        self.drained = drained;
        self
    }

    // Renders n frames of sanitized samples at a target, which the limiter keeps for drains. The first of them is
    // frame `first` of its block, whose highest linked peak so far is `best`.
    pub fn render(
        self,
        format: Format,
        target: f64,
        n: usize,
        audio: &mut [f64],
        lent: &mut Lent,
        first: usize,
        best: Highest,
    ) -> Moved
        requires kernel_ready { KernelReady self n (stores_in lent.old) audio.old }
        requires sanitized { Sanitized self.channels n audio.old }
        requires first_bound { first ≤ 65536 }
        ensures stays { Stays lent.old lent.new }
        ensures run_done { ran_at result.limiter (stores_in lent.new) audio.new
            ≡ render_of (rules_of self.settings format) self target n (stores_in lent.old) audio.old }
        ensures highest_value { result.highest
            ≡ highest_from first best (peaks_in (rules_of self.settings format) self target n (stores_in lent.old) audio.old) }
    {
        let terms = Terms {
            settings: self.settings,
            format,
            coeff: self.release_coeff,
            target,
            channels: self.channels,
            look: self.env.keeper.look,
        };
        let from = Rendered {
            env: self.env,
            pos: self.delay_pos,
            highest: best,
        };
        let run = render_run(terms, from, first, n, audio, lent);
        let highest = run.highest;
        let limiter = self.moved_on(run, target, 0);
        Moved { limiter, highest }
    }

    // Drains n frames of the tail: silence at the kept target. Nobody asks where its peaks sat.
    pub fn drain(self, format: Format, n: usize, audio: &mut [f64], lent: &mut Lent) -> Limiter
        requires { KernelReady self n (stores_in lent.old) audio.old }
        ensures stays { Stays lent.old lent.new }
        ensures run_done { ran_at result (stores_in lent.new) audio.new
            ≡ drain_of (rules_of self.settings format) self n (stores_in lent.old) audio.old }
    {
        audio.fill(0.0);
        let drained = self.drained + n;
        let best = start_of(false);
        let after = self.render(format, self.target, n, audio, lent, 0, best);
        let limiter = after.limiter;
        limiter.drained_to(drained)
    }
}
