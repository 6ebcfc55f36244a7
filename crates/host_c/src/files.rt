// Those over a file's audio, each by the function of its name in crate `host`, under the same clauses.
ghost use Rattle.std.specs.Prelude.{◌≡◌};
ghost use Rattle.audio.specs.declared.format.Format.TheVariants.{F64, F32};
ghost use Rattle.interleaving.specs.Calls.{deinterleave_of, interleave_of};
ghost use Rattle.host.specs.Files.{rearranged_at};

// Frame after frame, within the slice: channel after channel, as a block takes it.
#[unsafe(no_mangle)]
pub extern "C" fn daggeryuzu_deinterleave(channels: usize, audio: &mut [u8]) -> u32
    ensures { rearranged_at result audio.new ≡ deinterleave_of F64 channels audio.old }
{
    host::files::daggeryuzu_deinterleave(channels, audio)
}

// The same of f32 samples.
#[unsafe(no_mangle)]
pub extern "C" fn daggeryuzu_deinterleave_float(channels: usize, audio: &mut [u8]) -> u32
    ensures { rearranged_at result audio.new ≡ deinterleave_of F32 channels audio.old }
{
    host::files::daggeryuzu_deinterleave_float(channels, audio)
}

// Channel after channel, within the slice: frame after frame.
#[unsafe(no_mangle)]
pub extern "C" fn daggeryuzu_interleave(channels: usize, audio: &mut [u8]) -> u32
    ensures { rearranged_at result audio.new ≡ interleave_of F64 channels audio.old }
{
    host::files::daggeryuzu_interleave(channels, audio)
}

// The same of f32 samples.
#[unsafe(no_mangle)]
pub extern "C" fn daggeryuzu_interleave_float(channels: usize, audio: &mut [u8]) -> u32
    ensures { rearranged_at result audio.new ≡ interleave_of F32 channels audio.old }
{
    host::files::daggeryuzu_interleave_float(channels, audio)
}
