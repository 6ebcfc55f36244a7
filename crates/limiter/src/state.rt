// The limiter's state, by value. What the settings derive is stored beside them: look (the keeper's)
// and the release coefficient.
ghost use Rattle.std.specs.Prelude.{◌≡◌, true};
ghost use Rattle.settings.specs.Accepted.{rate_taken, release_taken};
ghost use Rattle.limiter.specs.State.{fresh_envelope, not_set_up, spec_of, started};

use envelope::env::Envelope;
use envelope::row::AttackRow;
use keeper::FloorKeeper;
use settings::{LimiterSettings, ProcessSpec};

// That it is set up is no invariant: a host may hand in any state, and 18 and 19 tell.
#[derive(Clone, Copy)]
pub struct Limiter {
    pub settings: LimiterSettings,
    pub rate: u32,
    pub channels: usize,
    pub max_block: usize,
    pub release_coeff: f64,
    pub env: Envelope,
    // where each delay line is read and written next
    pub delay_pos: usize,
    // the target that rendering kept, for drains
    pub target: f64,
    // tail frames drained since the last block or reset
    pub drained: usize,
}

fn fresh_envelope(look: usize) -> Envelope
    ensures { result ≡ fresh_envelope look }
{
    Envelope {
        keeper: FloorKeeper::fresh(look),
        attack: AttackRow { pos: 0, tally: 0 },
        gain: 1.0,
    }
}

impl Limiter {
    // A limiter that every call but setup refuses.
    pub fn not_set_up() -> Self
        ensures { result ≡ not_set_up }
    {
        Limiter {
            settings: LimiterSettings {
                threshold_db: 0.0,
                true_peak_margin_db: 0.0,
                lookahead_ms: 0.0,
                release_ms: 0.0,
                left_out: 0,
            },
            rate: 0,
            channels: 0,
            max_block: 0,
            release_coeff: 0.0,
            env: fresh_envelope(0),
            delay_pos: 0,
            target: 0.0,
            drained: 0,
        }
    }

    // What setup was told, but for the cap and the house table, which are done with there.
    pub fn spec(self) -> ProcessSpec
        ensures { result ≡ spec_of self }
    {
        ProcessSpec {
            rate: self.rate,
            channels: self.channels,
            max_block: self.max_block,
            cap: None,
            house: false,
        }
    }

    // The starting values for accepted settings.
    pub fn started(s: LimiterSettings, spec: ProcessSpec) -> Self
        requires release_taken { release_taken s.release_ms ≡ true }
        requires rate_taken { rate_taken spec.rate ≡ true }
        ensures { result ≡ started s spec }
    {
        let look = settings::derived::look(s.lookahead_ms, spec.rate);
        Limiter {
            settings: s,
            rate: spec.rate,
            channels: spec.channels,
            max_block: spec.max_block,
            release_coeff: settings::derived::release_coeff(s.release_ms, spec.rate),
            env: fresh_envelope(look as usize),
            delay_pos: 0,
            target: settings::target::target(s.threshold_db, s.true_peak_margin_db),
            drained: 0,
        }
    }
}
