// Setup of the limiter alone (`prepare` of limiter.rs).
ghost use Rattle.std.specs.Prelude.{◌≡◌, true, not, ◌||◌, ◌≤◌, length};
ghost use Rattle.arithmetic.specs.Reply.{numbered};
ghost use Rattle.settings.specs.Derived.{look_of, row_of};
ghost use Rattle.settings.specs.Weights.{accepted};
ghost use Rattle.settings.specs.House.{house_fits, weights_for};
ghost use Rattle.limiter.specs.Stores.{stores_at};
ghost use Rattle.limiter.specs.declared.prepare.PrepareRefusal.TheVariants.{Settings, OverCap};
ghost use Rattle.limiter.specs.Prepare.{prepare_reply, stores_refusal, prepare_refusal, prepared_at, prepare_of};

use crate::state::Limiter;
use crate::stores::{StoreLengths, lengths_fit, lengths_of};
use settings::accepted::SettingsRefusal;
use settings::memory::{OverCap, bytes_needed, judge_cap};
use settings::{LimiterSettings, ProcessSpec};

// Why setup refuses: 8 to 15, 29, 16 and 17 in this order, 15 with the bytes needed and the cap that was left.
#[derive(Clone, Copy, Debug, PartialEq, Eq)]
pub enum PrepareRefusal {
    Settings(SettingsRefusal),
    OverCap(OverCap),
    NoHouse,
    StoreLength,
    Weights,
}

impl From<SettingsRefusal> for PrepareRefusal {
    ghost from_gives = { λ why r. r ≡ Settings why };

    fn from(why: SettingsRefusal) -> PrepareRefusal {
        PrepareRefusal::Settings(why)
    }
}

impl From<OverCap> for PrepareRefusal {
    ghost from_gives = { λ over r. r ≡ OverCap over };

    fn from(over: OverCap) -> PrepareRefusal {
        PrepareRefusal::OverCap(over)
    }
}

// 29: whether there is a house table, where one is asked for.
fn has_house(spec: ProcessSpec, look: usize) -> bool
    ensures { result ≡ (not spec.house || house_fits spec.rate look) }
{
    !spec.house | settings::house::fits(spec.rate, look)
}

// 17: what the store holds is judged where no house table is asked for.
fn weights_taken(house: bool, weights: &[f64]) -> bool
    requires { length weights.now ≤ 4096 }
    ensures { result ≡ (house || accepted weights.now) }
{
    house || settings::weights::accepted(weights)
}

// 29, 16 and 17, of a look that is taken.
fn judge_stores(
    spec: ProcessSpec,
    look: usize,
    l: StoreLengths,
    weights: &[f64],
) -> Result<(), PrepareRefusal>
    requires small { (spec.channels ≤ 8) × (look ≤ 4096) }
    requires weights_lent { l.weights ≡ length weights.now }
    ensures { prepare_reply result ≡ numbered (stores_refusal spec look l weights.now) }
{
    let housed = has_house(spec, look);
    let fitting = lengths_fit(spec.channels, look, l);
    if !housed {
        return Err(PrepareRefusal::NoHouse);
    }
    if !fitting {
        return Err(PrepareRefusal::StoreLength);
    }
    if !weights_taken(spec.house, weights) {
        return Err(PrepareRefusal::Weights);
    }
    Ok(())
}

// What setup answers, before anything is written.
fn judge(
    s: LimiterSettings,
    spec: ProcessSpec,
    l: StoreLengths,
    weights: &[f64],
) -> Result<(), PrepareRefusal>
    requires { l.weights ≡ length weights.now }
    ensures { prepare_reply result
        ≡ prepare_refusal s spec l weights.now }
{
    settings::accepted::refusal(s, spec)?;
    let look = settings::derived::look(s.lookahead_ms, spec.rate) as usize;
    judge_cap(bytes_needed(spec.channels, look), spec.cap)?;
    judge_stores(spec, look, l, weights)
}

// The weights store of a finished setup.
fn lay_weights(s: LimiterSettings, spec: ProcessSpec, weights: &mut [f64])
    requires housed { spec.house ≡ true → house_fits spec.rate (look_of s.lookahead_ms spec.rate) ≡ true }
    requires weights_long { spec.house ≡ true → length weights.old ≡ row_of (look_of s.lookahead_ms spec.rate) }
    ensures { weights.new ≡ weights_for s spec weights.old }
{
    if spec.house {
        let look = settings::derived::look(s.lookahead_ms, spec.rate) as usize;
        settings::house::fill(spec.rate, look, weights);
    }
}

impl Limiter {
    // Sets a limiter up on lent stores: nothing is written unless nothing is refused.
    pub fn prepare(
        s: LimiterSettings,
        spec: ProcessSpec,
        delay: &mut [f64],
        marks: &mut [u64],
        minima: &mut [f64],
        weights: &mut [f64],
        row: &mut [f64],
        detector: &mut [f64],
    ) -> Result<Limiter, PrepareRefusal>
        ensures { prepared_at result (stores_at delay.new marks.new minima.new weights.new row.new detector.new)
            ≡ prepare_of s spec (stores_at delay.old marks.old minima.old weights.old row.old detector.old) }
    {
        let l = lengths_of(delay, marks, minima, weights, row, detector);
        judge(s, spec, l, weights)?;
        delay.fill(0.0);
        marks.fill(0);
        minima.fill(0.0);
        row.fill(1.0);
        detector.fill(0.0);
        lay_weights(s, spec, weights);
        Ok(Limiter::started(s, spec))
    }
}
