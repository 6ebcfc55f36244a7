// The runs of a drain (limiter.rs: `flush`).
ghost use Rattle.std.specs.Prelude.{◌≡◌, ◌+◌};
ghost use Rattle.audio.specs.Format.{written_bytes};
ghost use Rattle.frame.specs.Lent.{Stays};
ghost use Rattle.limiter.specs.Stores.{stores_in};
ghost use Rattle.turns.specs.Block.{outputs_of};
ghost use Rattle.turns.specs.Drain.{with_drained};
ghost use Rattle.turns.specs.Inner.{silent, DrainAsked};

use crate::turn::run_room;
use audio::format::Format;
use audio::planar::scatter;
use frame::stores::Lent;
use limiter::state::Limiter;

// Drains n frames of the tail, in runs.
pub fn drain_frames(
    limiter: Limiter,
    format: Format,
    n: usize,
    width: usize,
    audio: &mut [u8],
    lent: &mut Lent,
) -> Limiter
    requires { DrainAsked limiter format n width (stores_in lent.old) audio.old }
    ensures stays { Stays lent.old lent.new }
    ensures value { result
        ≡ with_drained (silent format limiter (stores_in lent.old) n).limiter (limiter.drained + n) }
    ensures stores_after { stores_in lent.new
        ≡ (silent format limiter (stores_in lent.old) n).stores }
    ensures audio_after { audio.new
        ≡ written_bytes format width limiter.channels n audio.old
        (outputs_of (silent format limiter (stores_in lent.old) n).frames) }
{
    let channels = limiter.channels;
    let mut run = run_room();
    let mut l = limiter;
    // no range has these steps: the last run may be shorter
    let mut first: usize = 0;
    while first < n {
        let len = (n - first).min(32);
        l = l.drain(format, len, &mut run, lent);
        scatter(format, channels, len, &run, width, first, audio);
        first += len;
    }
    l
}
