// The floor keeper. Its state crosses as four words: look, head, len and frame.
ghost use Rattle.std.specs.Prelude.{◌≡◌};
ghost use Rattle.keeper.specs.Keeper.{keeping_at, refusal_number, step_reply, setup_of, step_of};
ghost use Rattle.probe.specs.Out.{value_or};
ghost use Rattle.probe.specs.Floors.{words_of, keeper_of, counts_or, left_at, left_by, told_at, told_by};

use keeper::{FloorKeeper, Floored, KeeperRefusal};

// No `From`, here and in `write`: keeper and words are both declared elsewhere.
fn read(state: &[u64; 4]) -> FloorKeeper
    ensures { result ≡ keeper_of state.now }
{
    FloorKeeper {
        look: state[0] as usize,
        head: state[1] as usize,
        len: state[2] as usize,
        frame: state[3],
    }
}

fn write(state: &mut [u64; 4], keeper: FloorKeeper)
    ensures { state.new ≡ words_of keeper }
{
    *state = [
        keeper.look as u64,
        keeper.head as u64,
        keeper.len as u64,
        keeper.frame,
    ];
}

// Document 01's number.
fn number(why: KeeperRefusal) -> u32
    ensures { result ≡ refusal_number why }
{
    match why {
        KeeperRefusal::LookOutOfRange => 12,
        KeeperRefusal::StoreLength => 16,
        KeeperRefusal::OutOfOrder => 19,
        KeeperRefusal::FramesSpent => 22,
    }
}

// Tells a finished step's floor, drops and entries kept; a refused one leaves both places alone.
fn tell(answer: Result<Floored, KeeperRefusal>, floor: &mut f64, counts: &mut [u64; 2]) -> u32
    ensures { (result ≡ (step_reply answer).number)
        × (floor.new ≡ value_or floor.old (step_reply answer).values)
        × (counts.new ≡ counts_or counts.old (step_reply answer).values) }
{
    match answer {
        Ok(step) => {
            *floor = step.floor;
            *counts = [step.dropped as u64, step.kept as u64];
            0
        }
        Err(why) => number(why),
    }
}

// The result is document 01's number. A refused setup leaves a keeper that is not set up.
#[unsafe(no_mangle)]
pub extern "C" fn probe_floors_setup(
    look: usize,
    state: &mut [u64; 4],
    marks: &mut [u64],
    minima: &mut [f64],
) -> u32
    ensures { left_at result state.new marks.new minima.new
        ≡ left_by (setup_of look marks.old minima.old) }
{
    let done = FloorKeeper::setup(look, marks, minima);
    write(state, done.unwrap_or(FloorKeeper::fresh(0)));
    done.map_or_else(number, |_| 0)
}

// The result is document 01's number.
#[unsafe(no_mangle)]
pub extern "C" fn probe_floors_step(
    state: &mut [u64; 4],
    marks: &mut [u64],
    minima: &mut [f64],
    gain: f64,
    floor: &mut f64,
    counts: &mut [u64; 2],
) -> u32
    ensures { told_at (left_at result state.new marks.new minima.new) floor.new counts.new
        ≡ told_by floor.old counts.old
        (step_of (keeping_at (keeper_of state.old) marks.old minima.old) gain) }
{
    let mut keeper = read(state);
    let answer = keeper.step(marks, minima, gain);
    write(state, keeper);
    tell(answer, floor, counts)
}
