// The file `peaks`: records of two words, a sample and the detector's answer. Each sequence starts
// from a silent detector, after a record of two marks (7ff8000000000001), which is no sample's.
use arithmetic::pattern::{from_bits, to_bits};
use records::tally::Tally;
use records::words;
use std::io;

const MARK: u64 = 0x7ff8_0000_0000_0001;

// The rest of a record whose sample was read: one push. A mark silences the detector and is not counted.
pub fn record<R: io::Read>(
    file: &mut R,
    sample: u64,
    store: &mut [f64; 12],
    tally: &mut Tally,
) -> io::Result<()> {
    let answer = words::next(file)?;
    if sample == MARK {
        store.fill(0.0);
        return Ok(());
    }
    let pushed = detector::oversample::peak_abs(store, from_bits(sample));
    tally.count(to_bits(pushed.peak) == answer);
    Ok(())
}
