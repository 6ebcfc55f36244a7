// A run's frames out of a call's bytes, and into them, channel by channel. A run has 32 places for
// each of 8 channels.
ghost use Rattle.std.specs.Prelude.{◌≡◌, map, ◌+◌, ◌*◌, ◌%◌, ◌≤◌, ◌<◌, length, get_or, set, T};
ghost use Rattle.std.specs.Float.{nan};
ghost use Rattle.std.specs.Float.Ieee.{fits};
ghost use Rattle.audio.specs.Planar.{frames_at};
ghost use Rattle.audio.specs.Format.{binary_of, sample_bytes, bytes_for, size_of, places_of, sounds_of};
ghost use Rattle.audio.specs.Inner.{PlacesCopied, PlacesCarried, Held, HeldAll, Placed};

use crate::format::Format;
use crate::words::{bytes_at, put_bytes, put_word, word};
use arithmetic::narrow::{finite_widen, to_bits32};
use arithmetic::pattern::{finite_from_bits, to_bits};

// The sample at an index, sanitized by a test on its pattern.
fn sample(format: Format, bytes: &[u8], i: usize) -> f64
    requires { i < length (places_of format bytes.now) }
    ensures { result ≡ get_or (sounds_of format bytes.now) i nan }
{
    match format {
        Format::F64 => finite_from_bits(word(bytes, 8 * i)),
        Format::F32 => finite_widen(u32::from_le_bytes(bytes_at(bytes, 4 * i))),
    }
}

// A value of the sample type into its place, in bytes that are whole samples.
fn put_sample(format: Format, bytes: &mut [u8], i: usize, x: f64)
    requires held { T (fits (binary_of format) x) }
    requires whole { length bytes.old % sample_bytes format ≡ 0 }
    requires inside { i < length (places_of format bytes.old) }
    ensures { places_of format bytes.new ≡ set (places_of format bytes.old) i (bytes_for format x) }
{
    match format {
        Format::F64 => put_word(bytes, 8 * i, to_bits(x)),
        Format::F32 => put_bytes(bytes, 4 * i, &to_bits32(x).to_le_bytes()),
    }
}

// n samples from one place on to another place on, sanitized.
fn read_channel(format: Format, n: usize, from: usize, bytes: &[u8], to: usize, run: &mut [f64])
    requires from_inside { from + n ≤ length (places_of format bytes.now) }
    requires to_inside { to + n ≤ length run.old }
    ensures { PlacesCopied nan n from (sounds_of format bytes.now) to run.old run.new }
{
    for i in 0..n {
        run[to + i] = sample(format, bytes, from + i);
    }
}

// n frames, from a frame of bytes of `width` samples a channel on, into a run, sanitized.
// Its five numbers stay apart: a struct of them would be made for this call and `scatter`, and be read by nothing else.
pub fn gather(
    format: Format,
    channels: usize,
    n: usize,
    width: usize,
    first: usize,
    bytes: &[u8],
    run: &mut [f64],
)
    requires channels_bound { channels ≤ 8 }
    requires width_bound { width ≤ 65536 }
    requires audio_size { channels * width ≡ size_of format bytes.now }
    requires run_inside { first + n ≤ width }
    requires run_short { n ≤ 32 }
    requires run_len { length run.old ≡ 256 }
    ensures { PlacesCarried nan channels n width first (sounds_of format bytes.now) 32 0 run.old run.new }
{
    for c in 0..channels {
        read_channel(format, n, c * width + first, bytes, c * 32, run);
    }
}

// The bytes of n samples from one place on to another place on, in bytes that are whole samples.
fn write_channel(format: Format, n: usize, from: usize, run: &[f64], to: usize, bytes: &mut [u8])
    requires whole { length bytes.old % sample_bytes format ≡ 0 }
    requires from_inside { from + n ≤ length run.now }
    requires to_inside { to + n ≤ length (places_of format bytes.old) }
    requires held { Held format n from run.now }
    ensures { PlacesCopied (bytes_for format nan) n from (map (bytes_for format) run.now)
        to (places_of format bytes.old) (places_of format bytes.new) }
{
    for i in 0..n {
        put_sample(format, bytes, to + i, run[from + i]);
    }
}

// A run's n frames, to a frame of bytes of `width` samples a channel on.
pub fn scatter(
    format: Format,
    channels: usize,
    n: usize,
    run: &[f64],
    width: usize,
    first: usize,
    bytes: &mut [u8],
)
    requires channels_bound { channels ≤ 8 }
    requires width_bound { width ≤ 65536 }
    requires audio_size { channels * width ≡ size_of format bytes.old }
    requires run_inside { first + n ≤ width }
    requires run_short { n ≤ 32 }
    requires run_len { length run.now ≡ 256 }
    requires held_all { HeldAll format channels n run.now }
    ensures { Placed format channels n width first (frames_at nan 32 channels 0 n run.now) bytes.old bytes.new }
{
    for c in 0..channels {
        write_channel(format, n, c * 32, run, c * width + first, bytes);
    }
}
