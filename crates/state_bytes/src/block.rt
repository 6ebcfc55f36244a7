// A block of what a state's bytes keep: the limiter, and what its bank shows. The bank itself, which is
// large, is made for turns that may change it alone.
ghost use Rattle.std.specs.Prelude.{◌≡◌, true, []};
ghost use Rattle.bank.specs.Smoother.{stepped};
ghost use Rattle.bank.specs.Bank.{all_changed};
ghost use Rattle.frame.specs.Lent.{Stays};
ghost use Rattle.limiter.specs.Stores.{stores_in};
ghost use Rattle.turns.specs.Machine.{machine_of};
ghost use Rattle.frame.specs.Run.{peaks_of_frames};
ghost use Rattle.frame.specs.Place.{place_found_at, place_told};
ghost use Rattle.turns.specs.Inner.{BlockAsked, driven};
ghost use Rattle.driver.specs.Parts.{bank_with};
ghost use Rattle.state_bytes.specs.Shown.{showing, rendered_at};

use audio::format::Format;
use bank::smoother::Smoother;
use bank::smoother_bank::SmootherBank;
use driver::ready::shown;
use driver::state::Threshold;
use frame::highest::Seat;
use frame::stores::Lent;
use limiter::state::Limiter;
use settings::target::target;
use turns::drive::{drive_still, drive_turns};

// What a block leaves beside audio and stores: the limiter, and what its bank shows. One type with `Driven`, over what is
// kept of the bank, would not say which of the two a field holds.
#[derive(Clone, Copy)]
pub struct RenderedBlock {
    pub limiter: Limiter,
    pub threshold: Threshold,
    // the first frame with its highest linked peak, 0 where there is none or nobody asked, and where that sat
    pub frame: usize,
    pub seat: Option<Seat>,
}

// The bank that shows this and holds no other parameter.
pub fn bank_with(t: Threshold) -> SmootherBank
    ensures { result ≡ bank_with t }
{
    let s = t.smoother;
    let v = Smoother::vacant();
    SmootherBank {
        smoothers: [s, v, v, v, v, v, v, v],
        count: t.count,
        rate: t.rate,
        ready: t.ready,
    }
}

// Where it answers true, a step changes nothing of the bank that shows this.
fn rests(t: Threshold) -> bool
    ensures { result ≡ true → all_changed stepped (bank_with t) ≡ bank_with t }
{
    let s = t.smoother;
    (t.count == 1) & s.is_still()
}

// A block with no event and a bank at rest: it is not made at all.
fn render_still(
    l: Limiter,
    t: Threshold,
    format: Format,
    position: u64,
    frames: usize,
    audio: &mut [u8],
    lent: &mut Lent,
    asked: bool,
) -> RenderedBlock
    requires block_asked { BlockAsked (machine_of l (bank_with t) (stores_in lent.old)) format position frames audio.old }
    requires at_rest { all_changed stepped (bank_with t) ≡ bank_with t }
    ensures stays { Stays lent.old lent.new }
    ensures shown { rendered_at result (stores_in lent.new)
        ≡ showing (driven format (machine_of l (bank_with t) (stores_in lent.old)) position frames
        [] audio.old).machine }
    ensures audio_after { audio.new
        ≡ (driven format (machine_of l (bank_with t) (stores_in lent.old)) position frames
        [] audio.old).bytes }
    ensures seat_value { place_found_at result.frame result.seat
        ≡ place_told asked (peaks_of_frames (driven format (machine_of l (bank_with t) (stores_in lent.old)) position frames
        [] audio.old).frames) }
{
    let settings = l.settings;
    let s = t.smoother;
    let moved = drive_still(
        l,
        target(s.cur, settings.true_peak_margin_db),
        format,
        position,
        frames,
        audio,
        lent,
        asked,
    );
    let limiter = moved.limiter;
    let highest = moved.highest;
    let seat = highest.seat;
    RenderedBlock {
        limiter,
        threshold: t,
        frame: highest.frame,
        seat,
    }
}

// A block that nothing refuses, of a limiter whose bank holds the threshold alone. It is asked for the place of its
// highest peak, or is not.
pub fn render_block(
    l: Limiter,
    t: Threshold,
    format: Format,
    position: u64,
    frames: usize,
    events: &[u64],
    audio: &mut [u8],
    lent: &mut Lent,
    asked: bool,
) -> RenderedBlock
    requires { BlockAsked (machine_of l (bank_with t) (stores_in lent.old)) format position frames audio.old }
    ensures stays { Stays lent.old lent.new }
    ensures shown { rendered_at result (stores_in lent.new)
        ≡ showing (driven format (machine_of l (bank_with t) (stores_in lent.old)) position frames
        events.now audio.old).machine }
    ensures audio_after { audio.new
        ≡ (driven format (machine_of l (bank_with t) (stores_in lent.old)) position frames
        events.now audio.old).bytes }
    ensures seat_value { place_found_at result.frame result.seat
        ≡ place_told asked (peaks_of_frames (driven format (machine_of l (bank_with t) (stores_in lent.old)) position frames
        events.now audio.old).frames) }
{
    // most blocks: no whole event, and a bank at rest
    if (events.len() < 3) & rests(t) {
        return render_still(l, t, format, position, frames, audio, lent, asked);
    }
    let left = drive_turns(
        l,
        bank_with(t),
        format,
        position,
        frames,
        events,
        audio,
        lent,
        asked,
    );
    let limiter = left.limiter;
    let bank = left.bank;
    let seat = left.seat;
    RenderedBlock {
        limiter,
        threshold: shown(bank),
        frame: left.frame,
        seat,
    }
}
