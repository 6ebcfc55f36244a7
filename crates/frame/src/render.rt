// A run of up to 32 frames, in passes over all its frames (`render` of limiter.rs; a drain is a run of silence).
ghost use Rattle.std.specs.Prelude.{◌≡◌, ◌≤◌, replicate};
ghost use Rattle.arithmetic.specs.Number.{zero};
ghost use Rattle.frame.specs.Rules.{rules_of};
ghost use Rattle.frame.specs.Place.{highest_from};
ghost use Rattle.frame.specs.Run.{frames_of, gains_of_frames, peaks_of_frames, frames_in, run_of, done_at, RunReady};
ghost use Rattle.frame.specs.Lent.{Stays, moving_in};

use crate::gains::{gain_steps, required_gains};
use crate::highest::Highest;
use crate::outputs::all_outputs;
use crate::peak_place::{ceiling_of, highest_in};
use crate::peaks::{all_peaks, remember_all};
use crate::span::Span;
use crate::stores::Lent;
use audio::format::Format;
use envelope::env::Envelope;
use settings::LimiterSettings;

// What a run goes by, which none of its frames changes.
#[derive(Clone, Copy)]
pub struct Terms {
    pub settings: LimiterSettings,
    pub format: Format,
    // the release coefficient
    pub coeff: f64,
    pub target: f64,
    pub channels: usize,
    pub look: usize,
}

// What a run goes on from and leaves, beside the stores.
#[derive(Clone, Copy)]
pub struct Rendered {
    pub env: Envelope,
    // the delay position
    pub pos: usize,
    // the highest linked peak so far
    pub highest: Highest,
}

// The passes. `gains`, a place for each frame, starts at 0.0, where the linked peaks start, and holds the
// gains applied at last.
fn render_in(
    terms: Terms,
    from: Rendered,
    first: usize,
    n: usize,
    audio: &mut [f64; 256],
    lent: &mut Lent,
    gains: &mut [f64],
) -> Rendered
    requires run_ready { RunReady lent.old.weights.now terms.look terms.channels n (moving_in from.env from.pos lent.old) audio.old }
    requires first_bound { first ≤ 65536 }
    requires gains_zero { gains.old ≡ replicate n zero }
    ensures stays { Stays lent.old lent.new }
    ensures run_done { done_at (moving_in result.env result.pos lent.new) audio.new
        ≡ run_of (rules_of terms.settings terms.format) lent.old.weights.now terms.coeff terms.look terms.target terms.channels n
        (moving_in from.env from.pos lent.old) audio.old }
    ensures highest_value { result.highest
        ≡ highest_from first from.highest (peaks_of_frames (frames_of (rules_of terms.settings terms.format) lent.old.weights.now terms.coeff terms.look terms.target
        (moving_in from.env from.pos lent.old) (frames_in terms.channels n audio.old)).frames) }
    ensures gains_after { gains.new
        ≡ gains_of_frames (frames_of (rules_of terms.settings terms.format) lent.old.weights.now terms.coeff terms.look terms.target
        (moving_in from.env from.pos lent.old) (frames_in terms.channels n audio.old)).frames }
{
    let Terms {
        settings,
        format,
        coeff,
        target,
        channels,
        look,
    } = terms;
    let span = Span {
        settings,
        channels,
        n,
    };
    let best = from.highest;
    let ceiling = ceiling_of(target, best.peak);
    let detector = &mut *lent.detector;
    let heard = all_peaks(span, ceiling, audio, detector, gains);
    let highest = highest_in(span, first, best, gains, audio, detector);
    remember_all(span, audio, detector);
    required_gains(heard, target, gains);
    let last = gain_steps(
        from.env,
        lent.marks,
        lent.minima,
        lent.weights,
        lent.row,
        coeff,
        gains,
    );
    let next = all_outputs(format, span, look, from.pos, gains, lent.delay, audio);
    Rendered {
        env: last.env,
        pos: next,
        highest,
    }
}

// A run of n frames, the first of which is frame `first` of its block: each sample of `audio` gives way to its output.
pub fn render_run(
    terms: Terms,
    from: Rendered,
    first: usize,
    n: usize,
    audio: &mut [f64],
    lent: &mut Lent,
) -> Rendered
    requires run_ready { RunReady lent.old.weights.now terms.look terms.channels n (moving_in from.env from.pos lent.old) audio.old }
    requires first_bound { first ≤ 65536 }
    ensures stays { Stays lent.old lent.new }
    ensures run_done { done_at (moving_in result.env result.pos lent.new) audio.new
        ≡ run_of (rules_of terms.settings terms.format) lent.old.weights.now terms.coeff terms.look terms.target terms.channels n
        (moving_in from.env from.pos lent.old) audio.old }
    ensures highest_value { result.highest
        ≡ highest_from first from.highest (peaks_of_frames (frames_of (rules_of terms.settings terms.format) lent.old.weights.now terms.coeff terms.look terms.target
        (moving_in from.env from.pos lent.old) (frames_in terms.channels n audio.old)).frames) }
{
    let audio = audio.as_mut_array::<256>().unwrap();
    let mut gains = [0.0; 32];
    render_in(terms, from, first, n, audio, lent, &mut gains[..n])
}
