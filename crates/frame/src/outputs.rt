// The delayed outputs of a run.
ghost use Rattle.std.specs.Prelude.{◌≡◌, map, ◌+◌, ◌*◌, ◌≤◌, ◌<◌, min, length};
ghost use Rattle.arithmetic.specs.Sanitize.{finite_or_zero};
ghost use Rattle.detector.specs.Run.{run_length};
ghost use Rattle.envelope.specs.Row.{pos_after};
ghost use Rattle.frame.specs.Rules.{leaves_by};
ghost use Rattle.frame.specs.Frame.{given_out};
ghost use Rattle.frame.specs.Run.{Sanitized};
ghost use Rattle.frame.specs.Passes.{exchanged_at, exchange_of, products_of, outputs_at, channel_outputs, written_at, outputs_pass};

use crate::span::Span;
use arithmetic::narrow::narrow_flushed;
use arithmetic::sanitize::{finite_or_zero, flush_denormal};
use audio::format::Format;
use envelope::row::next_pos;

// What a frame gives out for what lay in the line.
fn given_out(format: Format, d: f64, gain: f64) -> f64
    ensures { result ≡ given_out (leaves_by format) d gain }
{
    let product = finite_or_zero(d) * gain;
    match format {
        Format::F64 => flush_denormal(product),
        Format::F32 => narrow_flushed(product),
    }
}

// A run's samples, which are sanitized, and what lies in the line from a position on change places, in
// straight stretches: each ends where the line or the run does, so that no wrap stands in the loop over
// it. The position that the next frame finds is handed back.
// No iterator has these stretches: how long one is shows only where it begins.
fn exchange(line: &mut [f64], pos: usize, samples: &mut [f64]) -> usize
    requires pos_in_bounds { pos < length line.old }
    requires sanitized { map finite_or_zero samples.old ≡ samples.old }
    ensures exchanged { exchanged_at samples.new line.new
        ≡ exchange_of (length line.old) pos line.old samples.old }
    ensures value { result ≡ pos_after (length line.old) pos (length samples.old) }
{
    let look = line.len();
    let n = samples.len();
    let mut p = pos;
    let mut i: usize = 0;
    while i < n {
        let len = (n - i).min(look - p);
        let pe = p + len;
        let ie = i + len;
        line[p..pe].swap_with_slice(&mut samples[i..ie]);
        i = ie;
        p = next_pos(look, pe - 1);
    }
    p
}

// What lay in the line gives way to what each frame gives out for it.
fn products(format: Format, gains: &[f64], samples: &mut [f64])
    requires { length gains.now ≡ length samples.old }
    ensures { samples.new ≡ products_of (leaves_by format) gains.now samples.old }
{
    let n = samples.len();
    for i in 0..n {
        samples[i] = given_out(format, samples[i], gains[i]);
    }
}

// One channel over a run: the outputs take the samples' places, and the samples go into the line. The
// position that the next frame finds is handed back.
fn channel_outputs(
    format: Format,
    line: &mut [f64],
    pos: usize,
    gains: &[f64],
    samples: &mut [f64],
) -> usize
    requires pos_in_bounds { pos < length line.old }
    requires gains_len { length gains.now ≡ length samples.old }
    requires sanitized { map finite_or_zero samples.old ≡ samples.old }
    ensures given_out { outputs_at samples.new line.new
        ≡ channel_outputs (leaves_by format) (length line.old) pos gains.now line.old samples.old }
    ensures value { result ≡ pos_after (length line.old) pos (length samples.old) }
{
    let next = exchange(line, pos, samples);
    products(format, gains, samples);
    next
}

// All channels over a run. Each goes on from the same position to the same position.
pub fn all_outputs(
    format: Format,
    span: Span,
    look: usize,
    pos: usize,
    gains: &[f64],
    delay: &mut [f64],
    audio: &mut [f64],
) -> usize
    requires some_channel { 1 ≤ span.channels }
    requires pos_lt_look { pos < look }
    requires audio_len { length audio.old ≡ 8 * run_length }
    requires delay_len { length delay.old ≡ span.channels * look }
    requires gains_len { length gains.now ≡ span.n }
    requires sanitized { Sanitized span.channels span.n audio.old }
    ensures given_out { written_at audio.new delay.new
        ≡ outputs_pass (leaves_by format) look pos gains.now span.channels span.n delay.old audio.old }
    ensures value { result ≡ pos_after look pos span.n }
{
    let mut next = pos;
    // by places: line and samples are lent to be written
    for c in 0..span.channels {
        let at = c * look;
        let first = c * 32;
        next = channel_outputs(
            format,
            &mut delay[at..at + look],
            pos,
            gains,
            &mut audio[first..first + span.n],
        );
    }
    next
}
