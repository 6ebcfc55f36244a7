// One turn of a block: latch, step the bank, render one run (driver.rs: a turn of `drive`).
ghost use Rattle.std.specs.Prelude.{◌≡◌, length};
ghost use Rattle.frame.specs.Lent.{Stays};
ghost use Rattle.limiter.specs.Stores.{stores_in};
ghost use Rattle.settings.specs.Target.{target_of};
ghost use Rattle.turns.specs.Machine.{threshold_of, machine_of};
ghost use Rattle.turns.specs.Block.{run_at};
ghost use Rattle.turns.specs.Inner.{RunAsked, RunGiven, TurnAsked, TurnGiven};

use crate::events::before_run;
use audio::format::Format;
use audio::planar::{gather, scatter};
use bank::smoother_bank::SmootherBank;
use frame::highest::Highest;
use frame::stores::Lent;
use limiter::run::Moved;
use limiter::state::Limiter;
use settings::target::target;

// A block that is not finished: where it starts, how long it is, the frames rendered, the events latched and
// the highest linked peak so far.
#[derive(Clone, Copy)]
pub struct Unfinished {
    pub position: u64,
    pub frames: usize,
    pub rendered: usize,
    pub latched: usize,
    pub highest: Highest,
}

// What a turn leaves beside audio and stores.
#[derive(Clone, Copy)]
pub struct Turned {
    pub limiter: Limiter,
    pub bank: SmootherBank,
    pub block: Unfinished,
}

// The frames up to the next multiple of 32 of the absolute position, or to the block's end.
pub fn run_length(position: u64, left: usize) -> usize
    ensures { result ≡ run_at position left }
{
    (32 - (position % 32) as usize).min(left)
}

// Where a run is rendered: 32 places for each of 8 channels.
pub fn run_room() -> [f64; 256]
    ensures { length result ≡ 256 }
{
    [0.0; 256]
}

// The target of the threshold as it stands.
pub fn target_now(limiter: Limiter, bank: SmootherBank) -> f64
    ensures { result ≡ target_of (threshold_of bank).cur limiter.settings.true_peak_margin_db }
{
    let s = limiter.settings;
    target(bank.value_at(0), s.true_peak_margin_db)
}

// Renders n frames of a call's audio, from a frame on. `run` is where they are rendered, and holds
// their outputs afterwards; `best` is the highest linked peak before them.
pub fn render_frames(
    limiter: Limiter,
    format: Format,
    target: f64,
    width: usize,
    first: usize,
    n: usize,
    audio: &mut [u8],
    run: &mut [f64],
    lent: &mut Lent,
    best: Highest,
) -> Moved
    requires { RunAsked limiter format target width first n (stores_in lent.old) audio.old run.old }
    ensures stays { Stays lent.old lent.new }
    ensures given { RunGiven limiter format target width first n (stores_in lent.old) audio.old
        run.old result.limiter (stores_in lent.new) audio.new run.new best result.highest }
{
    let channels = limiter.channels;
    gather(format, channels, n, width, first, audio, run);
    let after = limiter.render(format, target, n, run, lent, first, best);
    scatter(format, channels, n, run, width, first, audio);
    after
}

// The next run of a block that nothing refuses. `run` is where it is rendered, and holds its outputs
// afterwards.
pub fn turn(
    limiter: Limiter,
    bank: SmootherBank,
    block: Unfinished,
    format: Format,
    events: &[u64],
    audio: &mut [u8],
    run: &mut [f64],
    lent: &mut Lent,
) -> Turned
    requires { TurnAsked (machine_of limiter bank (stores_in lent.old)) block format events.now audio.old run.old }
    ensures stays { Stays lent.old lent.new }
    ensures given { TurnGiven (machine_of limiter bank (stores_in lent.old)) block format
        events.now audio.old run.old
        (machine_of result.limiter result.bank (stores_in lent.new)) result.block audio.new run.new }
{
    let first = block.rendered;
    let at = block.position + first as u64;
    let n = run_length(at, block.frames - first);
    let mut stepped = bank;
    let latched = before_run(&mut stepped, events, block.latched, at, first as u64);
    let best = block.highest;
    let after = render_frames(
        limiter,
        format,
        target_now(limiter, stepped),
        block.frames,
        first,
        n,
        audio,
        run,
        lent,
        best,
    );
    let moved = after.limiter;
    let highest = after.highest;
    Turned {
        limiter: moved,
        bank: stepped,
        block: Unfinished {
            position: block.position,
            frames: block.frames,
            rendered: first + n,
            latched,
            highest,
        },
    }
}
