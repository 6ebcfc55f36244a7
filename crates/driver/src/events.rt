// 21: the events of a block, three words each, offset, id and the value's bits.
ghost use Rattle.std.specs.Prelude.{◌≡◌, ◌+◌, ◌*◌, ◌<◌, length};
ghost use Rattle.turns.specs.Events.{event_at, events_of, misplaced, events_reply};
ghost use Rattle.driver.specs.Answers.{answer_reply};

use crate::answers::Refusal;
use arithmetic::number::is_finite;
use arithmetic::pattern::from_bits;

// Whether event i is at or past the end, earlier than the one before, or not finite. It is read where it lies, by its words.
fn is_misplaced(events: &[u64], i: usize, frames: u64, before: u64) -> bool
    requires { 3 * i + 2 < length events.now }
    ensures { result ≡ misplaced frames before (event_at events.now i) }
{
    let offset = events[3 * i];
    let value = from_bits(events[3 * i + 2]);
    (frames <= offset) | ((offset < before) | !is_finite(value))
}

// 21 with the first such event's index.
pub fn check_events(events: &[u64], frames: u64) -> Result<(), Refusal>
    ensures { answer_reply result ≡ events_reply frames 0 0 (events_of events.now) }
{
    let mut before: u64 = 0;
    for index in 0..events.len() / 3 {
        if is_misplaced(events, index, frames, before) {
            return Err(Refusal::Event { index });
        }
        before = events[3 * index];
    }
    Ok(())
}
