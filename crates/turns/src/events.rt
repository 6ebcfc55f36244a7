// How the events of a block latch: three words each, offset, id and the value's bits (driver.rs: latch_events).
// An event stays in words, and is no struct: the C interface lends them, and they are read where they lie. A cursor goes
// beside them, with its bound in a clause: a struct of both would hold the loan.
ghost use Rattle.std.specs.Prelude.{◌≡◌, ◌+◌, ◌*◌, ◌/◌, ◌<◌, ◌≤◌, length};
ghost use Rattle.turns.specs.Events.{event_at, latched_one, latched, latched_all};
ghost use Rattle.turns.specs.Inner.{waiting_at, latched_at, before_run};

use arithmetic::pattern::from_bits;
use bank::smoother_bank::SmootherBank;

// Event i latched; an unknown id is ignored.
fn latch_one(bank: &mut SmootherBank, events: &[u64], i: usize)
    requires { 3 * i + 2 < length events.now }
    ensures { bank.new ≡ latched_one (event_at events.now i) bank.old }
{
    let id = events[3 * i + 1];
    let value = from_bits(events[3 * i + 2]);
    if id < bank.count as u64 {
        bank.apply_at(id as usize, |s| s.set_target(value));
    }
}

// Latches the events from a cursor on that are stamped at or before a frame: the cursor past them.
#[tactic(auto, using(crate::proofs::Latching::latch_stop, crate::proofs::Latching::latch_more, crate::proofs::Latching::latch_end))]
pub fn latch(bank: &mut SmootherBank, events: &[u64], cursor: usize, first: u64) -> usize
    requires { cursor ≤ length events.now / 3 }
    ensures cursor_in_bounds { result ≤ length events.now / 3 }
    ensures events_value { latched_at bank.new result events.now ≡ latched first (waiting_at events.now cursor) bank.old }
{
    let n = events.len() / 3;
    for i in cursor..n {
        if first < events[3 * i] {
            return i;
        }
        latch_one(bank, events, i);
    }
    n
}

// Latches every event from a cursor on: `latch` up to a frame past all would leave one at the last frame of all.
#[tactic(auto, using(crate::proofs::Latching::rest_more, crate::proofs::Latching::rest_end))]
pub fn latch_rest(bank: &mut SmootherBank, events: &[u64], cursor: usize)
    requires { cursor ≤ length events.now / 3 }
    ensures { bank.new ≡ latched_all (waiting_at events.now cursor) bank.old }
{
    for i in cursor..events.len() / 3 {
        latch_one(bank, events, i);
    }
}

// Before a run: latch, then step the bank at a multiple of 32. The cursor past what latched.
#[tactic(auto, using(crate::proofs::Latching::step_taken, crate::proofs::Latching::step_left))]
pub fn before_run(
    bank: &mut SmootherBank,
    events: &[u64],
    cursor: usize,
    position: u64,
    first: u64,
) -> usize
    requires { cursor ≤ length events.now / 3 }
    ensures cursor_in_bounds { result ≤ length events.now / 3 }
    ensures events_value { latched_at bank.new result events.now ≡ before_run position first (waiting_at events.now cursor) bank.old }
{
    let latched = latch(bank, events, cursor, first);
    if position % 32 == 0 {
        bank.apply_all(|s| s.step());
    }
    latched
}
