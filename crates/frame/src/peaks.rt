// The peak of each frame of a run: the largest sanitized magnitude or detector answer over the counted channels. A
// channel too quiet to be noticed is passed over. The detector's store is lent, so its length is asked for by a clause.
ghost use Rattle.std.specs.Prelude.{◌≡◌, true, false, List, ◌+◌, ◌*◌, ◌≤◌, ◌<◌, length, replicate, Float};
ghost use Rattle.std.specs.Float.Ieee.{le};
ghost use Rattle.arithmetic.specs.Number.{zero};
ghost use Rattle.detector.specs.Oversample.{remembered};
ghost use Rattle.detector.specs.Run.{run_length, pushes_of};
ghost use Rattle.detector.specs.Level.{level_of};
ghost use Rattle.settings.specs.Counted.{counts_in};
ghost use Rattle.frame.specs.Rules.{taps_of, linking_of};
ghost use Rattle.frame.specs.Frame.{heard};
ghost use Rattle.frame.specs.Passes.{all_from_zero, heard_all, channel_peaks, peaks_pass};
ghost use Rattle.frame.specs.Alike.{AllAlike};

use crate::span::Span;
use arithmetic::sanitize::finite_or_zero;
use detector::oversample::{answers_abs, remember};
use detector::quiet::{level_below, lies_within};
use settings::LimiterSettings;
use settings::counted::counts_in;

// One channel's share in the peak of a frame. From a peak of 0 or more, three plain tests find it with
// no magnitude and no question about a NaN.
fn heard_in(peak: f64, x: f64, answer: f64) -> f64
    requires { le zero peak ≡ true }
    ensures value { result ≡ heard true peak x answer }
    ensures from_zero { le zero result ≡ true }
{
    let y = finite_or_zero(x);
    let mut top = peak;
    if y > top {
        top = y;
    }
    if -y > top {
        top = -y;
    }
    if answer > top {
        top = answer;
    }
    top
}

// A channel's share in the peak of each frame.
// That peaks are 0 or more is asked in clauses: they are lent, and a struct of them would hold the loan.
fn hear_run(peaks: &mut [f64], samples: &[f64], answers: &[f64])
    requires samples_len { length samples.now ≡ length peaks.old }
    requires answers_len { length answers.now ≡ length peaks.old }
    requires from_zero { all_from_zero peaks.old ≡ true }
    ensures peaks_after { peaks.new ≡ heard_all true peaks.old samples.now answers.now }
    ensures still_from_zero { all_from_zero peaks.new ≡ true }
{
    let n = samples.len();
    for i in 0..n {
        peaks[i] = heard_in(peaks[i], samples[i], answers[i]);
    }
}

// Channel c, which counts, over a run: the share of its samples and of the detector's answers for them goes into the
// peaks. The store stays as it is until `remember_all`.
fn channel_peaks(
    settings: LimiterSettings,
    c: usize,
    store: &[f64; 12],
    samples: &[f64],
    peaks: &mut [f64],
)
    requires samples_len { length samples.now ≡ length peaks.old }
    requires run_short { length samples.now ≤ run_length }
    requires from_zero { all_from_zero peaks.old ≡ true }
    requires counted { counts_in settings c ≡ true }
    ensures peaks_after { peaks.new
        ≡ (channel_peaks (linking_of settings) c peaks.old store.now samples.now).peaks }
    ensures still_from_zero { all_from_zero peaks.new ≡ true }
{
    let n = samples.len();
    let mut answers = [0.0; 32];
    answers_abs(store, samples, &mut answers[..n]);
    hear_run(peaks, samples, &answers[..n]);
}

// Channel c over a run. One that does not count has no share. Where its samples lie within the level for a ceiling,
// they and the detector's answers are at most the ceiling, or silent: a share that nobody notices who asks only for
// what is above it. Either way no sum is computed, and the answer is that nothing was heard.
fn hear_or_pass(
    settings: LimiterSettings,
    c: usize,
    level: f64,
    store: &[f64; 12],
    samples: &[f64],
    peaks: &mut [f64],
) -> bool
    requires samples_len { length samples.now ≡ length peaks.old }
    requires run_short { length samples.now ≤ run_length }
    requires from_zero { all_from_zero peaks.old ≡ true }
    requires c_bound { c < 8 }
    ensures all_alike { (ceiling : Float) (whole : List Float) → level ≡ level_of ceiling → AllAlike ceiling peaks.old whole
        → AllAlike ceiling peaks.new (channel_peaks (linking_of settings) c whole store.now samples.now).peaks }
    ensures peaks_unchanged { result ≡ false → peaks.new ≡ peaks.old }
{
    if !counts_in(settings, c) {
        return false;
    }
    if lies_within(store, samples, level) {
        return false;
    }
    channel_peaks(settings, c, store, samples, peaks);
    true
}

// All channels over a run of n frames. The peaks left are the definition's, or both are at most the ceiling. Whether
// any channel was heard: where none was, they are as they were.
pub fn all_peaks(
    span: Span,
    ceiling: f64,
    audio: &[f64; 256],
    detector: &[f64],
    peaks: &mut [f64],
) -> bool
    requires detector_len { length detector.now ≡ span.channels * remembered }
    requires peaks_zero { peaks.old ≡ replicate span.n zero }
    ensures all_alike { AllAlike ceiling peaks.new
        (peaks_pass (linking_of span.settings) 0 span.channels span.n peaks.old detector.now audio.now).peaks }
    ensures peaks_unchanged { result ≡ false → peaks.new ≡ peaks.old }
{
    let level = level_below(ceiling);
    let mut heard = false;
    for c in 0..span.channels {
        let some = hear_or_pass(
            span.settings,
            c,
            level,
            span.store(detector, c),
            span.samples(audio, c),
            peaks,
        );
        heard = heard | some;
    }
    heard
}

// What the detector remembers of a run of n frames, for every channel, counted or not.
pub fn remember_all(span: Span, audio: &[f64; 256], detector: &mut [f64])
    requires detector_len { length detector.old ≡ span.channels * remembered }
    ensures { (peaks : List Float) → detector.new
        ≡ (peaks_pass (linking_of span.settings) 0 span.channels span.n peaks detector.old audio.now).detector }
{
    for c in 0..span.channels {
        let at = c * 12;
        remember(&mut detector[at..at + 12], span.samples(audio, c));
    }
}
