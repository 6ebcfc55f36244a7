// The C functions over interleaved audio, as files hold it. They know no limiter.
ghost use Rattle.std.specs.Prelude.{◌≡◌};
ghost use Rattle.audio.specs.declared.format.Format.TheVariants.{F64, F32};
ghost use Rattle.interleaving.specs.Calls.{rearrange_of, deinterleave_of, interleave_of};
ghost use Rattle.host.specs.Files.{rearranged_at};

use audio::format::Format;
use interleaving::calls::{Direction, rearrange};

// In either direction, of a sample type.
fn rearrange_as(direction: Direction, format: Format, channels: usize, audio: &mut [u8]) -> u32
    ensures { rearranged_at result audio.new ≡ rearrange_of direction format channels audio.old }
{
    match rearrange(direction, format, channels, audio) {
        Ok(()) => 0,
        Err(refusal) => refusal.into(),
    }
}

// Frame after frame, within the slice: channel after channel, as a block takes it.
pub fn daggeryuzu_deinterleave(channels: usize, audio: &mut [u8]) -> u32
    ensures { rearranged_at result audio.new ≡ deinterleave_of F64 channels audio.old }
{
    rearrange_as(Direction::Deinterleave, Format::F64, channels, audio)
}

// The same of f32 samples.
pub fn daggeryuzu_deinterleave_float(channels: usize, audio: &mut [u8]) -> u32
    ensures { rearranged_at result audio.new ≡ deinterleave_of F32 channels audio.old }
{
    rearrange_as(Direction::Deinterleave, Format::F32, channels, audio)
}

// Channel after channel, within the slice: frame after frame.
pub fn daggeryuzu_interleave(channels: usize, audio: &mut [u8]) -> u32
    ensures { rearranged_at result audio.new ≡ interleave_of F64 channels audio.old }
{
    rearrange_as(Direction::Interleave, Format::F64, channels, audio)
}

// The same of f32 samples.
pub fn daggeryuzu_interleave_float(channels: usize, audio: &mut [u8]) -> u32
    ensures { rearranged_at result audio.new ≡ interleave_of F32 channels audio.old }
{
    rearrange_as(Direction::Interleave, Format::F32, channels, audio)
}
