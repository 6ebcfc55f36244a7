// Where the highest linked peak of a block sat (Change 5), among the counted channels. A run that has none above the
// highest so far is only looked through; the frame of a higher one is then heard once more, channel by channel.
ghost use Rattle.std.specs.Prelude.{◌≡◌, None, IfSome, List, ◌*◌, ◌≤◌, ◌<◌, length, Float};
ghost use Rattle.detector.specs.Oversample.{remembered};
ghost use Rattle.detector.specs.Run.{run_length};
ghost use Rattle.frame.specs.Rules.{linking_of};
ghost use Rattle.frame.specs.Seat.{heard_by, between_from, seat_of};
ghost use Rattle.frame.specs.Place.{highest_from};
ghost use Rattle.frame.specs.Passes.{voices_pass, places_from, any_above, risen_to, risen_from};
ghost use Rattle.frame.specs.Alike.{ceiling_of, AllAlike};

use crate::highest::{Highest, Seat};
use crate::span::Span;
use arithmetic::number::abs;
use arithmetic::sanitize::finite_or_zero;
use detector::oversample::answer_at;
use settings::counted::counts_in;

// The highest of a run's peaks above a height, and the first frame that has it; the height itself where none is above it.
#[derive(Clone, Copy)]
struct Top {
    peak: f64,
    at: Option<usize>,
}

// What stays unnoticed: peaks that are neither above the target nor above the highest so far.
pub fn ceiling_of(target: f64, top: f64) -> f64
    ensures { result ≡ ceiling_of target top }
{
    if top < target { top } else { target }
}

// Whether a peak is above a height. It reads them all, without a way out: several in one instruction.
fn any_above(peaks: &[f64], top: f64) -> bool
    ensures { result ≡ any_above top peaks.now }
{
    let mut found = false;
    for p in peaks {
        found = found | (*p > top);
    }
    found
}

// The first of the highest peaks above a height.
fn top_of(peaks: &[f64], top: f64) -> Top
    ensures risen { risen_to result.peak result.at ≡ risen_from 0 (risen_to top None) peaks.now }
    ensures inside { IfSome result.at (λ i. i < length peaks.now) }
{
    let mut peak = top;
    let mut at = None;
    for (i, p) in peaks.iter().enumerate() {
        if *p > peak {
            peak = *p;
            at = Some(i);
        }
    }
    Top { peak, at }
}

fn heard_by(channel: usize, phase: Option<usize>) -> Option<Seat>
    ensures { result ≡ heard_by channel phase }
{
    phase.map(|phase| Seat::Between { channel, phase })
}

// Of frame `at` of a run, the lowest counted channel whose detector answers the peak, and its phase.
fn between(span: Span, at: usize, peak: f64, audio: &[f64; 256], detector: &[f64]) -> Option<Seat>
    requires at_lt_n { at < span.n }
    requires detector_len { length detector.now ≡ span.channels * remembered }
    ensures { result ≡ between_from peak 0 (voices_pass (linking_of span.settings) 0 span.channels at detector.now audio.now) }
{
    // a turn knows that c is a channel, which a closure would not
    for c in 0..span.channels {
        let answer = answer_at(span.store(detector, c), span.samples(audio, c), at);
        if counts_in(span.settings, c) & (answer.peak == peak) {
            let phase = answer.phase;
            return heard_by(c, phase);
        }
    }
    None
}

// Where the peak of frame `at` of a run sat: a sample that is as high comes before a detector.
fn seat_at(span: Span, at: usize, peak: f64, audio: &[f64; 256], detector: &[f64]) -> Option<Seat>
    requires at_lt_n { at < span.n }
    requires detector_len { length detector.now ≡ span.channels * remembered }
    ensures { result ≡ seat_of peak (voices_pass (linking_of span.settings) 0 span.channels at detector.now audio.now) }
{
    if peak == 0.0 {
        return None;
    }
    // as in `between`
    for c in 0..span.channels {
        let sample = abs(finite_or_zero(audio[c * 32 + at]));
        if counts_in(span.settings, c) & (sample == peak) {
            return Some(Seat::OnSample(c));
        }
    }
    between(span, at, peak, audio, detector)
}

// The highest so far after a run, the first of which is frame `first` of its block. The peaks are the
// definition's, or both are at most a ceiling that is not above the highest so far; the detector is as it was before the run.
pub fn highest_in(
    span: Span,
    first: usize,
    best: Highest,
    peaks: &[f64],
    audio: &[f64; 256],
    detector: &[f64],
) -> Highest
    requires first_bound { first ≤ 65536 }
    requires peaks_len { length peaks.now ≡ span.n }
    requires detector_len { length detector.now ≡ span.channels * remembered }
    ensures { (target : Float) (whole : List Float) → AllAlike (ceiling_of target best.peak) peaks.now whole
        → result ≡ highest_from first best (places_from (linking_of span.settings) span.channels 0 whole detector.now audio.now) }
{
    // nothing is above an infinity, where a block starts that is not asked: its peaks are not looked through
    if best.peak == f64::INFINITY {
        return best;
    }
    if !any_above(peaks, best.peak) {
        return best;
    }
    let top = top_of(peaks, best.peak);
    // never so, since a peak is above; asked again, it need not be shown
    let Some(at) = top.at else {
        return best;
    };
    let seat = seat_at(span, at, top.peak, audio, detector);
    Highest {
        peak: top.peak,
        frame: first + at,
        seat,
    }
}
