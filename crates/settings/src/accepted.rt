// Which settings are accepted: the refusals 8 to 14.
ghost use Rattle.std.specs.Prelude.{◌≡◌, ◌==◌};
ghost use Rattle.arithmetic.specs.Reply.{numbered};
ghost use Rattle.settings.specs.Accepted.{rate_taken, margin_taken, lookahead_taken, release_taken, channels_taken};
ghost use Rattle.settings.specs.Accepted.{refusal_of, refusal_number, settings_reply};

use crate::derived::look;
use crate::{LimiterSettings, ProcessSpec};
use arithmetic::number::is_finite;
use keeper::look_taken;

// The settings' refusals under document 01's numbers, in the table's order.
#[derive(Clone, Copy, Debug, PartialEq, Eq)]
pub enum SettingsRefusal {
    Rate = 8,
    Margin = 9,
    Lookahead = 10,
    Release = 11,
    Look = 12,
    Channels = 13,
    Block = 14,
}

impl From<SettingsRefusal> for u32 {
    ghost from_gives = { λ why n. n ≡ refusal_number why };

    fn from(why: SettingsRefusal) -> u32 {
        why as u32
    }
}

pub fn rate_taken(rate: u32) -> bool
    ensures { result ≡ rate_taken rate }
{
    (8000 <= rate) & (rate <= 192000)
}

fn margin_taken(m: f64) -> bool
    ensures { result ≡ margin_taken m }
{
    is_finite(m) & !(m < 0.0) & !(30.0 < m)
}

fn lookahead_taken(ms: f64) -> bool
    ensures { result ≡ lookahead_taken ms }
{
    is_finite(ms) & (0.0 < ms)
}

pub fn release_taken(ms: f64) -> bool
    ensures { result ≡ release_taken ms }
{
    is_finite(ms) & !(ms < 0.0) & !(10000.0 < ms) & !((0.0 < ms) & (ms < 0.01))
}

pub(crate) fn channels_taken(channels: usize) -> bool
    ensures { result ≡ channels_taken channels }
{
    (1 <= channels) & (channels <= 8)
}

// The first of 8 to 14 that arises.
pub fn refusal(s: LimiterSettings, spec: ProcessSpec) -> Result<(), SettingsRefusal>
    ensures { settings_reply result ≡ numbered (refusal_of s spec) }
{
    if !rate_taken(spec.rate) {
        return Err(SettingsRefusal::Rate);
    }
    if !margin_taken(s.true_peak_margin_db) {
        return Err(SettingsRefusal::Margin);
    }
    if !lookahead_taken(s.lookahead_ms) {
        return Err(SettingsRefusal::Lookahead);
    }
    if !release_taken(s.release_ms) {
        return Err(SettingsRefusal::Release);
    }
    if !look_taken(look(s.lookahead_ms, spec.rate) as usize) {
        return Err(SettingsRefusal::Look);
    }
    if !channels_taken(spec.channels) {
        return Err(SettingsRefusal::Channels);
    }
    if 65536 < spec.max_block {
        return Err(SettingsRefusal::Block);
    }
    Ok(())
}

// Whether none of 8 to 14 arises.
pub fn is_accepted(s: LimiterSettings, spec: ProcessSpec) -> bool
    ensures { result ≡ (refusal_of s spec == 0) }
{
    refusal(s, spec).is_ok()
}
