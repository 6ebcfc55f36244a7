// The sums of the four phases, a sample at a time, the largest magnitude among them, and the first that has it.
// The table is flat: four taps in a row meet one sample. It is handed down: named where it is indexed, it would be
// laid on the stack each time. Places in a run are asked to lie in it by clauses: a type of such a place would be made at
// each call.
ghost use Rattle.std.specs.Prelude.{◌≡◌, false, cond, List, [], ◌∷◌, ◌+◌, ◌-◌, ◌*◌, ◌%◌, ◌≤◌, ◌<◌, length, take, drop, replicate, Float, None};
ghost use Rattle.std.specs.Float.Ieee.{eq, lt};
ghost use Rattle.arithmetic.specs.Number.{zero, abs_of};
ghost use Rattle.detector.specs.Oversample.{remembered, larger, largest_of, first_at, phase_of};
ghost use Rattle.detector.specs.Sums.{factor, tap_count, added, sums_on, sums_by, up_to, samples_at, newer_of, fours_of, answers_of};

use crate::answer::Peak;
use arithmetic::number::abs;

// A sample times its taps, added to the sums that these belong to: each product is rounded before it is added.
fn add_products(sums: &mut [f64], taps: &[f64], d: f64)
    requires { length taps.now ≡ length sums.old }
    ensures { sums.new ≡ added sums.old taps.now d }
{
    let n = sums.len();
    for p in 0..n {
        sums[p] = sums[p] + taps[p] * d;
    }
}

// The samples of a run from place i back, m of them, into the sums.
fn add_run(sums: &mut [f64], table: &[f64; 48], run: &[f64], i: usize, m: usize)
    requires sums_bound { factor * m + length sums.old ≤ tap_count + factor }
    requires i_in_bounds { i < length run.now }
    requires m_bound { m ≤ i + 1 }
    ensures { sums.new ≡ sums_on table.now sums.old (take m (up_to run.now i)) }
{
    let n = sums.len();
    for k in 0..m {
        add_products(sums, &table[4 * k..4 * k + n], run[i - k]);
    }
}

// The store's samples into the sums, behind m newer ones, up to `end` in all. It reads forwards what `add_run` reads backwards.
fn add_store(sums: &mut [f64], table: &[f64; 48], store: &[f64; 12], m: usize, end: usize)
    requires sums_bound { factor * end + length sums.old ≤ tap_count + factor }
    requires m_le_end { m ≤ end }
    requires end_le_remembered { end ≤ remembered }
    ensures { sums.new
        ≡ sums_on (drop (factor * m) table.now) sums.old (take (end - m) store.now) }
{
    let n = sums.len();
    for k in m..end {
        add_products(sums, &table[4 * k..4 * k + n], store[k - m]);
    }
}

// The magnitude of a sum: its bit pattern without the sign; a NaN counts as 0.0. The test compiles to a
// select, not a branch.
fn magnitude(sum: f64) -> f64
    ensures { result ≡ cond (eq sum sum) (abs_of sum) zero }
{
    let mut m = 0.0;
    if sum == sum {
        m = f64::from_bits(f64::to_bits(sum) % 0x8000_0000_0000_0000);
    }
    m
}

// The larger of the peak so far and a sum's magnitude.
fn larger_of(peak: f64, sum: f64) -> f64
    requires { lt peak zero ≡ false }
    ensures value { result ≡ larger peak sum }
    ensures not_below_zero { lt result zero ≡ false }
{
    let m = magnitude(sum);
    if m > peak { m } else { peak }
}

// The largest magnitude among the interpolated outputs.
fn largest_of(sums: &[f64]) -> f64
    ensures { result ≡ largest_of sums.now }
{
    let mut peak = 0.0;
    for s in sums {
        peak = larger_of(peak, *s);
    }
    peak
}

// The first of the interpolated outputs whose magnitude is the peak.
fn phase_of(sums: &[f64], peak: f64) -> Option<usize>
    ensures { result ≡ cond (eq peak zero) None (first_at peak 0 sums.now) }
{
    if peak == 0.0 {
        return None;
    }
    sums.iter().position(|s| abs(*s) == peak)
}

// What the sums of an answer tell.
fn answer_of(sums: &[f64; 4]) -> Peak
    requires { length sums.now ≡ factor }
    ensures peak_value { result.peak ≡ largest_of sums.now }
    ensures phase_value { result.phase ≡ phase_of sums.now }
{
    let peak = largest_of(sums);
    let phase = phase_of(sums, peak);
    Peak { peak, phase }
}

// The answer for a sample and what a store remembers behind it.
pub fn peak_of_push(table: &[f64; 48], newest: f64, store: &[f64; 12]) -> Peak
    ensures peak_value { result.peak ≡ largest_of (sums_by table.now (take remembered (newest ∷ store.now))) }
    ensures phase_value { result.phase ≡ phase_of (sums_by table.now (take remembered (newest ∷ store.now))) }
{
    let mut sums = [0.0; 4];
    add_products(&mut sums, &table[0..4], newest);
    add_store(&mut sums, table, store, 1, 12);
    answer_of(&sums)
}

// The sums of the answer at place i of a run that follows what a store remembers.
fn sums_of_one(table: &[f64; 48], store: &[f64; 12], run: &[f64], i: usize) -> [f64; 4]
    requires i_in_bounds { i < length run.now }
    ensures { result ≡ sums_by table.now (samples_at store.now run.now i) }
{
    let mut sums = [0.0; 4];
    if i < 12 {
        add_run(&mut sums, table, run, i, i + 1);
        add_store(&mut sums, table, store, i + 1, 12);
        return sums;
    }
    add_run(&mut sums, table, run, i, 12);
    sums
}

// The answer at place i of such a run, with its phase.
pub fn answer_one(table: &[f64; 48], store: &[f64; 12], run: &[f64], i: usize) -> Peak
    requires i_in_bounds { i < length run.now }
    ensures peak_value { result.peak ≡ largest_of (sums_by table.now (samples_at store.now run.now i)) }
    ensures phase_value { result.phase ≡ phase_of (sums_by table.now (samples_at store.now run.now i)) }
{
    let sums = sums_of_one(table, store, run, i);
    answer_of(&sums)
}

// ---- Four answers side by side, that at `at` first: sixteen sums, those of an answer a tap ahead of the one
// before it.

// The samples newer than that at `at`, which only the three answers ahead read.
fn add_first(sums: &mut [f64; 16], table: &[f64; 48], run: &[f64], at: usize)
    requires sums_zero { sums.old ≡ replicate (factor * 4) zero }
    requires at_in_bounds { at + 3 < length run.now }
    ensures { sums.new ≡ newer_of table.now run.now at }
{
    add_run(&mut sums[4..8], table, run, at + 1, 1);
    add_run(&mut sums[8..12], table, run, at + 2, 2);
    add_run(&mut sums[12..16], table, run, at + 3, 3);
}

// The last three samples that the first answer reads: the answers ahead have no taps left for some of them.
fn add_last(sums: &mut [f64; 16], table: &[f64; 48], d0: f64, d1: f64, d2: f64)
    ensures { sums.new ≡ sums_on (drop (factor * 9) table.now) sums.old (d0 ∷ d1 ∷ d2 ∷ []) }
{
    add_products(&mut sums[0..12], &table[36..48], d0);
    add_products(&mut sums[0..8], &table[40..48], d1);
    add_products(&mut sums[0..4], &table[44..48], d2);
}

// The twelve samples from place `at` of a run back into the sums, where the oldest of them lie in the store.
fn add_across(sums: &mut [f64; 16], table: &[f64; 48], store: &[f64; 12], run: &[f64], at: usize)
    requires at_in_bounds { at < length run.now }
    requires at_bound { at ≤ 8 }
    ensures { sums.new
        ≡ sums_on table.now sums.old (samples_at store.now run.now at) }
{
    add_run(sums, table, run, at, at + 1);
    add_store(sums, table, store, at + 1, 9);
    add_last(sums, table, store[8 - at], store[9 - at], store[10 - at]);
}

// The same where all twelve lie in the run. No store is read, so the promise holds of whatever came before it: one function
// with `add_across` could not say so.
fn add_within(sums: &mut [f64; 16], table: &[f64; 48], run: &[f64], at: usize)
    requires at_in_bounds { at < length run.now }
    requires remembered_bound { remembered ≤ at + 1 }
    ensures { (behind : List Float) → sums.new
        ≡ sums_on table.now sums.old (samples_at behind run.now at) }
{
    add_run(sums, table, run, at, 9);
    add_last(sums, table, run[at - 9], run[at - 10], run[at - 11]);
}

// The sums of four answers of a run, that at `at` first. They are no `sums_of_one` of another size: of the fifteen samples
// that the four read only nine meet them all.
fn sums_of_four(table: &[f64; 48], store: &[f64; 12], run: &[f64], at: usize) -> [f64; 16]
    requires at_in_bounds { at + 3 < length run.now }
    requires at_a_fourth { at % 4 ≡ 0 }
    ensures { result ≡ fours_of table.now store.now run.now at }
{
    let mut sums = [0.0; 16];
    add_first(&mut sums, table, run, at);
    // Of the multiples of four 0, 4 and 8 have samples behind the run; from 12 on all twelve lie in it.
    if at < 9 {
        add_across(&mut sums, table, store, run, at);
        return sums;
    }
    add_within(&mut sums, table, run, at);
    sums
}

// Four answers of a run, that at `at` first.
fn answer_four(table: &[f64; 48], store: &[f64; 12], run: &[f64], answers: &mut [f64], at: usize)
    requires at_in_bounds { at + 3 < length run.now }
    requires run_in_bounds { length run.now ≤ length answers.old }
    requires at_a_fourth { at % 4 ≡ 0 }
    ensures { take at answers.old ≡ take at (answers_of (sums_by table.now) store.now run.now)
        → take (at + 4) answers.new ≡ take (at + 4) (answers_of (sums_by table.now) store.now run.now) }
{
    let sums = sums_of_four(table, store, run, at);
    for r in 0..4 {
        answers[at + r] = largest_of(&sums[4 * r..4 * r + 4]);
    }
}

// The answers of a run of a multiple of four samples, into the first places.
fn answer_fours(table: &[f64; 48], store: &[f64; 12], run: &[f64], answers: &mut [f64])
    requires run_len { length run.now % 4 ≡ 0 }
    requires run_in_bounds { length run.now ≤ length answers.old }
    ensures { take (length run.now) answers.new
        ≡ answers_of (sums_by table.now) store.now run.now }
{
    let n = run.len() / 4;
    for g in 0..n {
        answer_four(table, store, run, answers, 4 * g);
    }
}

// The answers of a run: by fours, and the up to three left over one by one.
pub fn answer_all(table: &[f64; 48], store: &[f64; 12], run: &[f64], answers: &mut [f64])
    requires answers_len { length answers.old ≡ length run.now }
    ensures { answers.new ≡ answers_of (sums_by table.now) store.now run.now }
{
    let n = run.len();
    let m = n / 4 * 4;
    answer_fours(table, store, &run[0..m], answers);
    for i in m..n {
        let sums = sums_of_one(table, store, run, i);
        answers[i] = largest_of(&sums);
    }
}
