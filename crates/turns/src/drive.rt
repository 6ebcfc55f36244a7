// The turns of a block (driver.rs: `drive`). What is asked of one stays in parameters: a struct of it would hold the loan of
// its audio, and want a clause for that in each function.
ghost use Rattle.std.specs.Prelude.{◌≡◌, []};
ghost use Rattle.bank.specs.declared.smoother_bank.SmootherBank.{SmootherBank};
ghost use Rattle.frame.specs.Lent.{Stays};
ghost use Rattle.limiter.specs.Stores.{stores_in};
ghost use Rattle.turns.specs.Machine.{machine_of};
ghost use Rattle.frame.specs.Run.{peaks_of_frames};
ghost use Rattle.frame.specs.Place.{place_found_at, place_in, place_told};
ghost use Rattle.turns.specs.Inner.{BlockAsked, AtRest, StillAsked, driven};

use crate::events::latch_rest;
use crate::turn::{Unfinished, render_frames, run_length, run_room, target_now, turn};
use audio::format::Format;
use bank::smoother_bank::SmootherBank;
use frame::highest::{Seat, start_of};
use frame::stores::Lent;
use limiter::run::Moved;
use limiter::state::Limiter;

// What a block leaves beside audio and stores.
#[derive(Clone, Copy)]
pub struct Driven {
    pub limiter: Limiter,
    pub bank: SmootherBank,
    // the first frame with its highest linked peak, 0 where there is none or nobody asked, and where that sat
    pub frame: usize,
    pub seat: Option<Seat>,
}

// A block with no event, at the target of a bank that a step leaves alone: every run has that target. The bank, which
// is large, is neither lent nor given back.
pub fn drive_still(
    limiter: Limiter,
    target: f64,
    format: Format,
    position: u64,
    frames: usize,
    audio: &mut [u8],
    lent: &mut Lent,
    asked: bool,
) -> Moved
    requires { StillAsked limiter target (stores_in lent.old) format position frames audio.old }
    ensures stays { Stays lent.old lent.new }
    ensures machine_after { (b : SmootherBank) → AtRest limiter target b → machine_of result.limiter b (stores_in lent.new)
        ≡ (driven format (machine_of limiter b (stores_in lent.old)) position frames
        [] audio.old).machine }
    ensures audio_after { (b : SmootherBank) → AtRest limiter target b → audio.new
        ≡ (driven format (machine_of limiter b (stores_in lent.old)) position frames
        [] audio.old).bytes }
    ensures highest_value { (b : SmootherBank) → AtRest limiter target b → place_in result.highest
        ≡ place_told asked (peaks_of_frames (driven format (machine_of limiter b (stores_in lent.old)) position frames
        [] audio.old).frames) }
{
    let mut run = run_room();
    // what a run leaves is handed to the next one as it came back: taken apart, it would be copied each time
    let mut moved = Moved {
        limiter,
        highest: start_of(asked),
    };
    // no range has these steps: a run ends at a multiple of 32 of the position
    let mut first: usize = 0;
    while first < frames {
        let n = run_length(position + first as u64, frames - first);
        let l = moved.limiter;
        let best = moved.highest;
        moved = render_frames(
            l, format, target, frames, first, n, audio, &mut run, lent, best,
        );
        first += n;
    }
    moved
}

// A block, turn by turn.
pub fn drive_turns(
    limiter: Limiter,
    bank: SmootherBank,
    format: Format,
    position: u64,
    frames: usize,
    events: &[u64],
    audio: &mut [u8],
    lent: &mut Lent,
    asked: bool,
) -> Driven
    requires { BlockAsked (machine_of limiter bank (stores_in lent.old)) format position frames audio.old }
    ensures stays { Stays lent.old lent.new }
    ensures machine_after { machine_of result.limiter result.bank (stores_in lent.new)
        ≡ (driven format (machine_of limiter bank (stores_in lent.old)) position frames
        events.now audio.old).machine }
    ensures audio_after { audio.new
        ≡ (driven format (machine_of limiter bank (stores_in lent.old)) position frames
        events.now audio.old).bytes }
    ensures seat_value { place_found_at result.frame result.seat
        ≡ place_told asked (peaks_of_frames (driven format (machine_of limiter bank (stores_in lent.old)) position frames
        events.now audio.old).frames) }
{
    let mut run = run_room();
    let mut l = limiter;
    let mut b = bank;
    let highest = start_of(asked);
    let mut block = Unfinished {
        position,
        frames,
        rendered: 0,
        latched: 0,
        highest,
    };
    // no range has these steps: each turn tells how far it came
    while block.rendered < frames {
        let t = turn(l, b, block, format, events, audio, &mut run, lent);
        l = t.limiter;
        b = t.bank;
        block = t.block;
    }
    let highest = block.highest;
    let frame = highest.frame;
    let seat = highest.seat;
    latch_rest(&mut b, events, block.latched);
    Driven {
        limiter: l,
        bank: b,
        frame,
        seat,
    }
}

// A block that nothing refuses, which is asked for the place of its highest peak, or is not.
pub fn drive(
    limiter: Limiter,
    bank: SmootherBank,
    format: Format,
    position: u64,
    frames: usize,
    events: &[u64],
    audio: &mut [u8],
    lent: &mut Lent,
    asked: bool,
) -> Driven
    requires { BlockAsked (machine_of limiter bank (stores_in lent.old)) format position frames audio.old }
    ensures stays { Stays lent.old lent.new }
    ensures machine_after { machine_of result.limiter result.bank (stores_in lent.new)
        ≡ (driven format (machine_of limiter bank (stores_in lent.old)) position frames
        events.now audio.old).machine }
    ensures audio_after { audio.new
        ≡ (driven format (machine_of limiter bank (stores_in lent.old)) position frames
        events.now audio.old).bytes }
    ensures seat_value { place_found_at result.frame result.seat
        ≡ place_told asked (peaks_of_frames (driven format (machine_of limiter bank (stores_in lent.old)) position frames
        events.now audio.old).frames) }
{
    // most blocks: no whole event, and a bank at rest
    if (events.len() < 3) & bank.is_still() {
        let moved = drive_still(
            limiter,
            target_now(limiter, bank),
            format,
            position,
            frames,
            audio,
            lent,
            asked,
        );
        let limiter = moved.limiter;
        let highest = moved.highest;
        let seat = highest.seat;
        return Driven {
            limiter,
            bank,
            frame: highest.frame,
            seat,
        };
    }
    drive_turns(
        limiter, bank, format, position, frames, events, audio, lent, asked,
    )
}
