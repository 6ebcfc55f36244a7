// A smoother as twelve words (specs/Words.antt), for whoever keeps or lends a bank as numbers.
ghost use Rattle.std.specs.Prelude.{◌≡◌, ◌+◌, ◌<◌, ◌≤◌, length};
ghost use Rattle.bank.specs.Words.{float_in, half_in, shape_of, smoother_in, shape_word, smoother_out};

use crate::param::Smoothing;
use crate::smoother::Smoother;
use arithmetic::pattern::{from_bits, to_bits};

// The float at a place.
pub fn float_in(words: &[u64], k: usize) -> f64
    requires { k < length words.now }
    ensures { result ≡ float_in words.now k }
{
    from_bits(words[k])
}

// The number of 32 bits at a place.
pub fn half_in(words: &[u64], k: usize) -> u32
    requires { k < length words.now }
    ensures { result ≡ half_in words.now k }
{
    (words[k] % 4294967296) as u32
}

// Any word is a shape, as `shape_of` has it: a state's is judged before (`is_held`).
impl From<u64> for Smoothing {
    ghost from_gives = { λ word shape. shape ≡ shape_of word };

    fn from(word: u64) -> Smoothing {
        match word {
            0 => Smoothing::Step,
            1 => Smoothing::Linear,
            _ => Smoothing::OnePole,
        }
    }
}

impl From<Smoothing> for u64 {
    ghost from_gives = { λ shape word. word ≡ shape_word shape };

    fn from(shape: Smoothing) -> u64 {
        match shape {
            Smoothing::Step => 0,
            Smoothing::Linear => 1,
            Smoothing::OnePole => 2,
        }
    }
}

// The smoother from a place on.
pub fn smoother_in(words: &[u64], k: usize) -> Smoother
    requires { k + 12 ≤ length words.now }
    ensures { result ≡ smoother_in words.now k }
{
    Smoother {
        id: half_in(words, k),
        cur: float_in(words, k + 1),
        target: float_in(words, k + 2),
        low: float_in(words, k + 3),
        high: float_in(words, k + 4),
        default: float_in(words, k + 5),
        steps: float_in(words, k + 6),
        updates_remaining: words[k + 7],
        step_delta: float_in(words, k + 8),
        shape: Smoothing::from(words[k + 9]),
        coeff: float_in(words, k + 10),
        smoothing_ms: float_in(words, k + 11),
    }
}

// The words that `smoother_in` reads. It reads them at a place among others, so it is no `From`, nor is this, its like.
pub fn smoother_out(s: Smoother) -> [u64; 12]
    ensures { result ≡ smoother_out s }
{
    [
        u64::from(s.id),
        to_bits(s.cur),
        to_bits(s.target),
        to_bits(s.low),
        to_bits(s.high),
        to_bits(s.default),
        to_bits(s.steps),
        s.updates_remaining,
        to_bits(s.step_delta),
        u64::from(s.shape),
        to_bits(s.coeff),
        to_bits(s.smoothing_ms),
    ]
}
