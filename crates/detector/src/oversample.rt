// Polyphase FIR oversampling for inter-sample peak detection (oversample.rs), factor 4, 12 taps. What a channel
// remembers is shifted and read where it lies, in its store, whose length is asked for by a clause, since stores are lent.
ghost use Rattle.std.specs.Prelude.{◌≡◌, ◌++◌, map, reverse, ◌-◌, ◌≤◌, ◌<◌, length, get_or, take, drop};
ghost use Rattle.std.specs.Float.{nan};
ghost use Rattle.arithmetic.specs.Sanitize.{finite_or_zero};
ghost use Rattle.detector.specs.Taps.{taps};
ghost use Rattle.detector.specs.Oversample.{remembered, sums_of, pushed_at, peak_abs_of};
ghost use Rattle.detector.specs.Run.{run_length, pushes_at, pushes_of, peaks_abs_of};
ghost use Rattle.detector.specs.Sums.{answers_of};

use crate::answer::Peak;
use crate::phases::{answer_all, answer_one, peak_of_push};
use crate::taps::TAPS;
use arithmetic::sanitize::finite_or_zero;

// The remembered samples moved down by n in the store itself, none written over before it has moved. The first n
// places are left as they were.
fn shift_by(store: &mut [f64; 12], n: usize)
    requires { n ≤ remembered }
    ensures { store.new ≡ take n store.old ++ take (remembered - n) store.old }
{
    store.copy_within(..12 - n, n);
}

// Push one input sample of a channel and answer the largest magnitude among the four interpolated
// outputs, and the first that has it. A store that is not twelve samples long is left alone, and the answer
// is 0.0.
pub fn peak_abs(store: &mut [f64], x: f64) -> Peak
    ensures { pushed_at result.peak result.phase store.new ≡ peak_abs_of taps store.old x }
{
    let Some(store) = store.as_mut_array::<12>() else {
        return Peak {
            peak: 0.0,
            phase: None,
        };
    };
    // The answer before the shift: sums over samples just stored would wait for the stores.
    let newest = finite_or_zero(x);
    let answer = peak_of_push(&TAPS, newest, store);
    shift_by(store, 1);
    store[0] = newest;
    answer
}

// A run's sanitized samples, the oldest first, in the first places of a line.
fn line_of(samples: &[f64]) -> [f64; 32]
    requires { length samples.now ≤ run_length }
    ensures { take (length samples.now) result ≡ map finite_or_zero samples.now }
{
    let mut line = [0.0; 32];
    let n = samples.len();
    for i in 0..n {
        line[i] = finite_or_zero(samples[i]);
    }
    line
}

// The newest n sanitized samples of a run into the first places of a store, the newest first.
fn lay_newest(store: &mut [f64; 12], samples: &[f64], n: usize)
    requires store_enough { n ≤ remembered }
    requires samples_enough { n ≤ length samples.now }
    ensures { store.new
        ≡ take n (reverse (map finite_or_zero samples.now)) ++ drop n store.old }
{
    let end = samples.len();
    for i in 0..n {
        store[i] = finite_or_zero(samples[end - 1 - i]);
    }
}

// The answers of a run that follows what a store remembers. The table is named outside the loops.
fn answer_run(store: &[f64; 12], run: &[f64], answers: &mut [f64])
    requires { length answers.old ≡ length run.now }
    ensures { answers.new ≡ answers_of (sums_of taps) store.now run.now }
{
    answer_all(&TAPS, store, run, answers);
}

// What the pushes of a run of up to 32 samples would answer, peaks alone; the store is only read.
pub fn answers_abs(store: &[f64], samples: &[f64], answers: &mut [f64])
    requires store_len { length store.now ≡ remembered }
    requires samples_len_bound { length samples.now ≤ run_length }
    requires answers_len { length answers.old ≡ length samples.now }
    ensures { answers.new ≡ (pushes_of taps store.now samples.now).peaks }
{
    let store = store.as_array::<12>().unwrap();
    let n = samples.len();
    let line = line_of(samples);
    answer_run(store, &line[..n], answers);
}

// What the push of sample `at` of a run would answer, after those before it; the store is only read. Beside `answers_abs`:
// one answer, with its phase, and no sums for the others.
pub fn answer_at(store: &[f64], samples: &[f64], at: usize) -> Peak
    requires store_len { length store.now ≡ remembered }
    requires samples_len_bound { length samples.now ≤ run_length }
    requires at_in_bounds { at < length samples.now }
    ensures peak_value { result.peak
        ≡ (peak_abs_of taps (pushes_of taps store.now (take at samples.now)).store (get_or samples.now at nan)).peak }
    ensures phase_value { result.phase
        ≡ (peak_abs_of taps (pushes_of taps store.now (take at samples.now)).store (get_or samples.now at nan)).phase }
{
    let store = store.as_array::<12>().unwrap();
    let n = samples.len();
    let line = line_of(samples);
    answer_one(&TAPS, store, &line[..n], at)
}

// Push a run of up to 32 samples of a channel: `answers` gets the peaks that `peak_abs` would answer, and the
// store is left as the single pushes would leave it. Where the run is longer, the store is not twelve samples long
// or the answers are not as many as the samples, both are left alone.
pub fn peaks_abs(store: &mut [f64], samples: &[f64], answers: &mut [f64])
    ensures { pushes_at answers.new store.new
        ≡ peaks_abs_of taps store.old samples.now answers.old }
{
    let n = samples.len();
    if n > 32 {
        return;
    }
    if store.len() != 12 {
        return;
    }
    if answers.len() != n {
        return;
    }
    answers_abs(store, samples, answers);
    remember(store, samples);
}

// The store as the pushes of a run would leave it: of twelve samples or more, the newest twelve.
pub fn remember(store: &mut [f64], samples: &[f64])
    requires store_len { length store.old ≡ remembered }
    requires samples_len_bound { length samples.now ≤ run_length }
    ensures { store.new ≡ (pushes_of taps store.old samples.now).store }
{
    let store = store.as_mut_array::<12>().unwrap();
    let n = samples.len();
    if n >= 12 {
        lay_newest(store, samples, 12);
        return;
    }
    shift_by(store, n);
    lay_newest(store, samples, n);
}
