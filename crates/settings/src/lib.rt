// The limiter's settings and what setup derives from them: look, release coefficient, bytes, target,
// and which settings and weights are accepted (limiter.rs, memory.rs).
#![tactic(auto)]

ghost use Rattle.std.specs.Prelude.{◌≡◌};
ghost use Rattle.settings.specs.Settings.{settings_of, defaults};

// Which channels count in the linked peak.
pub mod counted;

// Look and release coefficient.
pub mod derived;
// The byte count and a cap on it.
pub mod memory;
// Which weights are accepted.
pub mod weights;
// The house weights, and their table.
pub mod house;
mod house_table;
// The level that no peak is to pass.
pub mod target;
// The refusals 8 to 14.
pub mod accepted;

// Construction settings of the limiter.
#[derive(Clone, Copy)]
pub struct LimiterSettings {
    // Limiter ceiling in dBFS.
    pub threshold_db: f64,
    // Safety margin below the ceiling.
    pub true_peak_margin_db: f64,
    // Lookahead in milliseconds: latency and tail.
    pub lookahead_ms: f64,
    // Release in milliseconds; 0 releases at once.
    pub release_ms: f64,
    // The channels that do not count in the linked peak, bit c for channel c; bits past the channels mean nothing.
    pub left_out: u8,
}

// What setup is told beside the settings (`ProcessSpec` of contract/spec.rs), apart from them as in the Rust: they are kept
// for good, and of this the cap and the house table are not.
#[derive(Clone, Copy)]
pub struct ProcessSpec {
    pub rate: u32,
    pub channels: usize,
    // Largest block, in frames.
    pub max_block: usize,
    // How many bytes setup may take; without it there is no limit.
    pub cap: Option<u64>,
    // Whether setup is to fill the weights store from a house table.
    pub house: bool,
}

impl Default for LimiterSettings {
    ghost is_default = { λ s. s ≡ defaults };

    // −1 dBFS, 0.1 dB, 1.5 ms, 50 ms, and every channel counts.
    fn default() -> Self {
        LimiterSettings {
            threshold_db: -1.0,
            true_peak_margin_db: 0.1,
            lookahead_ms: 1.5,
            release_ms: 50.0,
            left_out: 0,
        }
    }
}

impl LimiterSettings {
    // Each setter hands the settings back with one field changed; a field is nothing that one setter could be passed.
    pub fn threshold_db(mut self, threshold_db: f64) -> Self
        ensures { result ≡ settings_of threshold_db self.true_peak_margin_db self.lookahead_ms self.release_ms self.left_out }
    {
        self.threshold_db = threshold_db;
        self
    }

    pub fn true_peak_margin_db(mut self, true_peak_margin_db: f64) -> Self
        ensures { result ≡ settings_of self.threshold_db true_peak_margin_db self.lookahead_ms self.release_ms self.left_out }
    {
        self.true_peak_margin_db = true_peak_margin_db;
        self
    }

    pub fn lookahead_ms(mut self, lookahead_ms: f64) -> Self
        ensures { result ≡ settings_of self.threshold_db self.true_peak_margin_db lookahead_ms self.release_ms self.left_out }
    {
        self.lookahead_ms = lookahead_ms;
        self
    }

    pub fn release_ms(mut self, release_ms: f64) -> Self
        ensures { result ≡ settings_of self.threshold_db self.true_peak_margin_db self.lookahead_ms release_ms self.left_out }
    {
        self.release_ms = release_ms;
        self
    }

    pub fn left_out(mut self, left_out: u8) -> Self
        ensures { result ≡ settings_of self.threshold_db self.true_peak_margin_db self.lookahead_ms self.release_ms left_out }
    {
        self.left_out = left_out;
        self
    }
}
