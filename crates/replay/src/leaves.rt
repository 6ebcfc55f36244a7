// The file `leaves`: records of six words, op, a, b, c, status and answer. An f64 is its bits, and
// every NaN answer is the canonical one.
use arithmetic::math::OutOfDomain;
use arithmetic::narrow::to_bits32;
use arithmetic::pattern::{from_bits, to_bits};
use records::tally::Tally;
use records::words;
use std::io;

// Why there is no value, by the status in the file: no such op, and document 01's 26.
#[derive(Clone, Copy)]
enum NoValue {
    Op = 1,
    OutOfDomain = 26,
}

impl From<OutOfDomain> for NoValue {
    fn from(_e: OutOfDomain) -> NoValue {
        NoValue::OutOfDomain
    }
}

// The ops by their numbers in the file, each at its words: the value's word.
// Each is named in this match alone, and an enum or a table of functions would list them twice.
#[tactic(auto, using(arithmetic::proofs::Exact32::narrowed_fits))]
fn answer(op: u64, abc: [u64; 3]) -> Result<u64, NoValue> {
    let [a, b, c] = abc.map(from_bits);
    Ok(match op {
        1 => to_bits(arithmetic::sanitize::finite_or_zero(a)),
        2 => to_bits(arithmetic::sanitize::flush_denormal(a)),
        3 => to_bits(arithmetic::math::exp(a)?),
        4 => to_bits(arithmetic::number::abs(a)),
        5 => to_bits(arithmetic::number::min(a, b)),
        6 => to_bits(arithmetic::number::max(a, b)),
        7 => to_bits(arithmetic::number::clamp(a, b, c)),
        8 => to_bits(arithmetic::number::copysign(a, b)),
        9 => arithmetic::number::round(a),
        10 => arithmetic::number::ceil(a),
        11 => to_bits32(arithmetic::narrow::narrow(a)) as u64,
        12 => to_bits(arithmetic::narrow::widen(words::half(abc[0]))),
        _ => return Err(NoValue::Op),
    })
}

// The rest of a record whose op was read: the status, 0 for a value, and the word, 0 for none.
pub fn record<R: io::Read>(file: &mut R, op: u64, tally: &mut Tally) -> io::Result<()> {
    let [a, b, c, status, word] = words::array::<_, 5>(file)?;
    let got = match answer(op, [a, b, c]) {
        Ok(word) => (0, word),
        Err(why) => (why as u64, 0),
    };
    tally.count(got == (status, word));
    Ok(())
}
