// The answers of the limiter's calls beside the recorded ones.
use arithmetic::pattern::to_bits;
use bank::smoother_bank::ParamRefusal;
use driver::answers::{Flushed, GainStepped, Processed, Refusal};
use frame::highest::Seat;
use records::words::{array, next};
use std::io;

// Where a block's highest linked peak sat, as the file has it: 0 nowhere, 1 on a sample, 2 between two; the frame, the
// channel, the phase. What is not told may be anything there.
fn placed_same(told: Processed, due: [u64; 4]) -> bool {
    let at = told.frame as u64;
    let [kind, frame, channel, _] = due;
    match told.seat {
        None => kind == 0,
        Some(Seat::OnSample(c)) => (kind, frame, channel) == (1, at, c as u64),
        Some(
            Seat::Between {
                channel: c,
                phase: p,
            },
        ) => due == [2, at, c as u64, p as u64],
    }
}

// A block is finished, its outputs have the recorded digest, and its highest peak sat where it was recorded.
pub fn block_same<R: io::Read>(
    file: &mut R,
    told: Result<Processed, Refusal>,
    digest: u64,
) -> io::Result<bool> {
    let digested = digest == next(file)?;
    let due = array::<_, 4>(file)?;
    Ok(digested & told.is_ok_and(|p| placed_same(p, due)))
}

// What a drain tells, with the digest of the frames written, is what was recorded.
pub fn drained_same<R: io::Read>(
    file: &mut R,
    told: Result<Flushed, Refusal>,
    digest: u64,
) -> io::Result<bool> {
    let due = array::<_, 3>(file)?;
    Ok(told.is_ok_and(|f| due == [f.written as u64, u64::from(f.done), digest]))
}

// A reading is the recorded number and, where that is 0, the recorded bits.
pub fn value_same(told: Result<f64, ParamRefusal>, due: u64, bits: u64) -> bool {
    match told {
        Ok(value) => (due == 0) & (to_bits(value) == bits),
        Err(why) => u32::from(why) as u64 == due,
    }
}

// What a gain step tells, as the file has it.
pub fn step_same(told: GainStepped, due: [u64; 6]) -> bool {
    due == [
        to_bits(told.floor),
        told.dropped as u64,
        told.kept as u64,
        told.tally as u64,
        to_bits(told.mean),
        to_bits(told.gain),
    ]
}
