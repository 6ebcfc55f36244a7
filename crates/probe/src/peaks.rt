// The detector.
ghost use Rattle.std.specs.Prelude.{◌≡◌, length};
ghost use Rattle.detector.specs.Taps.{taps};
ghost use Rattle.arithmetic.specs.Number.{bits};
ghost use Rattle.detector.specs.Oversample.{peak_abs_of};
ghost use Rattle.detector.specs.Run.{pushes_at, peaks_abs_of};
ghost use Rattle.probe.specs.Out.{phase_word};

// One push into a lent store of 12 samples.
#[unsafe(no_mangle)]
pub extern "C" fn probe_peak_abs(store: &mut [f64], x: f64) -> f64
    ensures value { result ≡ (peak_abs_of taps store.old x).peak }
    ensures store_after { store.new ≡ (peak_abs_of taps store.old x).store }
{
    detector::oversample::peak_abs(store, x).peak
}

fn phase_word(phase: Option<usize>) -> u64
    ensures { result ≡ phase_word phase }
{
    phase.map_or(4, |p| p as u64)
}

// The phase of one push of a sample, which comes as its bits: 4 where there is none.
#[unsafe(no_mangle)]
pub extern "C" fn probe_peak_phase(store: &mut [f64], x: u64) -> u64
    ensures value { result ≡ phase_word (peak_abs_of taps store.old (bits x)).phase }
    ensures store_after { store.new ≡ (peak_abs_of taps store.old (bits x)).store }
{
    let answer = detector::oversample::peak_abs(store, arithmetic::pattern::from_bits(x));
    let phase = answer.phase;
    phase_word(phase)
}

// A run of pushes, its samples kept in a place of their own.
fn push_run(store: &mut [f64], run: &mut [f64], samples: &mut [f64])
    requires { length samples.old ≡ length run.old }
    ensures store_after { pushes_at run.new store.new
        ≡ peaks_abs_of taps store.old run.old run.old }
    ensures samples_after { samples.new ≡ run.old }
{
    samples.copy_from_slice(run);
    detector::oversample::peaks_abs(store, samples, run);
}

// A run of pushes: each sample is replaced by its answer.
#[tactic(auto, using(detector::proofs::Line::run_alone))]
#[unsafe(no_mangle)]
pub extern "C" fn probe_peaks_abs(store: &mut [f64], run: &mut [f64])
    ensures { pushes_at run.new store.new
        ≡ peaks_abs_of taps store.old run.old run.old }
{
    let n = run.len();
    if n > 32 {
        return;
    }
    let mut samples = [0.0; 32];
    push_run(store, run, &mut samples[..n]);
}
