// What the passes of a run go over.
ghost use Rattle.std.specs.Prelude.{◌≡◌, ◌*◌, ◌≤◌, ◌<◌, length, take, drop};
ghost use Rattle.detector.specs.Oversample.{remembered};
ghost use Rattle.detector.specs.Run.{run_length};

use settings::LimiterSettings;

// So many frames of so many channels; the settings tell which channels count.
#[derive(Clone, Copy)]
pub struct Span {
    pub settings: LimiterSettings,
    pub channels: usize,
    pub n: usize,
    ghost few: { channels ≤ 8 },
    ghost short: { n ≤ run_length },
}

impl Span {
    // A channel's samples of the run's audio, which has 32 places for each of 8 channels.
    pub fn samples<'a>(self, audio: &'a [f64; 256], c: usize) -> &'a [f64]
        requires { c < self.channels }
        ensures value { result.now ≡ take self.n (drop (c * run_length) audio.now) }
        ensures len { length result.now ≡ self.n }
    {
        let first = c * 32;
        &audio[first..first + self.n]
    }

    // What a channel's detector remembers, of the store that has 12 places a channel.
    pub fn store<'a>(self, detector: &'a [f64], c: usize) -> &'a [f64; 12]
        requires c_in_bounds { c < self.channels }
        requires detector_len { length detector.now ≡ self.channels * remembered }
        ensures { result.now ≡ take remembered (drop (c * remembered) detector.now) }
    {
        let at = c * 12;
        detector[at..at + 12].as_array::<12>().unwrap()
    }
}
