// What setup derives and judges.
ghost use Rattle.std.specs.Prelude.{◌≡◌, false, cond, ◌&&◌, length};
ghost use Rattle.settings.specs.Settings.{settings_of, all_count, process_spec};
ghost use Rattle.settings.specs.Derived.{look_of};
ghost use Rattle.settings.specs.Target.{target_of};
ghost use Rattle.settings.specs.Accepted.{rate_taken, release_taken, refusal_of};
ghost use Rattle.probe.specs.Setup.{weights_taken, coeff_or, house_taken, house_or};

use settings::{LimiterSettings, ProcessSpec};

#[unsafe(no_mangle)]
pub extern "C" fn probe_look(ms: f64, rate: u32) -> u64
    ensures { result ≡ look_of ms rate }
{
    settings::derived::look(ms, rate)
}

#[unsafe(no_mangle)]
pub extern "C" fn probe_target(threshold: f64, margin: f64) -> f64
    ensures { result ≡ target_of threshold margin }
{
    settings::target::target(threshold, margin)
}

// Whether setup takes a release and a rate.
fn has_coeff(ms: f64, rate: u32) -> bool
    ensures { result ≡ (release_taken ms && rate_taken rate) }
{
    settings::accepted::release_taken(ms) & settings::accepted::rate_taken(rate)
}

// The release coefficient; −1.0, which none is, for a release or a rate that setup refuses.
#[unsafe(no_mangle)]
pub extern "C" fn probe_coeff(ms: f64, rate: u32) -> f64
    ensures { result ≡ coeff_or ms rate }
{
    if has_coeff(ms, rate) {
        settings::derived::release_coeff(ms, rate)
    } else {
        -1.0
    }
}

// The first of 8 to 14 that arises, or 0.
#[unsafe(no_mangle)]
pub extern "C" fn probe_refusal(
    threshold: f64,
    margin: f64,
    lookahead: f64,
    release: f64,
    rate: u32,
    channels: usize,
    max_block: usize,
) -> u32
    ensures { result
        ≡ refusal_of (settings_of threshold margin lookahead release all_count) (process_spec rate channels max_block None false) }
{
    let s = LimiterSettings {
        threshold_db: threshold,
        true_peak_margin_db: margin,
        lookahead_ms: lookahead,
        release_ms: release,
        left_out: 0,
    };
    let spec = ProcessSpec {
        rate,
        channels,
        max_block,
        cap: None,
        house: false,
    };
    match settings::accepted::refusal(s, spec) {
        Ok(()) => 0,
        Err(why) => u32::from(why),
    }
}

// The weights rule; more than 4,096 weights, which no look has, are not accepted.
#[unsafe(no_mangle)]
pub extern "C" fn probe_weights(weights: &[f64]) -> bool
    ensures { result ≡ weights_taken weights.now }
{
    weights.len() <= 4096 && settings::weights::accepted(weights)
}

// Whether there are house weights of a rate and look, as many as a store has.
fn has_house(rate: u32, look: usize, places: usize) -> bool
    ensures { result ≡ house_taken rate look places }
{
    settings::house::fits(rate, look) & (places == settings::memory::row_len(look))
}

// The house weights of a rate and look into a store that has their number: 1, or 0 and nothing is written.
#[unsafe(no_mangle)]
pub extern "C" fn probe_house(rate: u32, look: usize, weights: &mut [f64]) -> u32
    ensures value { result ≡ cond (house_taken rate look (length weights.old)) 1 0 }
    ensures weights_after { weights.new ≡ house_or rate look weights.old }
{
    if !has_house(rate, look, weights.len()) {
        return 0;
    }
    settings::house::fill(rate, look, weights);
    1
}
