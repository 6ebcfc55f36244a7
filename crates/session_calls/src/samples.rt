// The samples of a recorded session, which both sides make from a seed, and the digest of a call's outputs.
ghost use Rattle.std.specs.Prelude.{◌≤◌, length};
ghost use Rattle.audio.specs.Format.{sample_bytes};

use audio::format::{Format, sample_bytes};
use audio::words::bytes_at;
use records::words::half;

// Of what kind a session's samples are, as its head tells.
#[derive(Clone, Copy)]
pub enum Kind {
    Any,
    Loud,
    LoudToQuiet,
    FullScale,
    DamageInSilence,
    Tiny,
}

impl From<u64> for Kind {
    fn from(word: u64) -> Kind {
        match word {
            0 => Kind::Any,
            1 => Kind::Loud,
            2 => Kind::LoudToQuiet,
            3 => Kind::FullScale,
            4 => Kind::DamageInSilence,
            _ => Kind::Tiny,
        }
    }
}

impl Kind {
    // The bits of a sample.
    fn shaped(self, r: u64) -> u64 {
        match self {
            Kind::Any => r,
            Kind::Loud => lowered(r, 7),
            Kind::LoudToQuiet => lowered(r, 31),
            Kind::FullScale => (r & 0x8000_0000_0000_0000) | 0x3ff0_0000_0000_0000,
            Kind::DamageInSilence => { if (r >> 52) & 63 == 0 { r } else { 0 } }
            Kind::Tiny => r & 0x801f_ffff_ffff_ffff,
        }
    }

    // The same at 32 bits: the sign, the low seven digits of the exponent and the first 23 of the fraction;
    // where any pattern may stand, the low half.
    fn single(self, r: u64) -> u32 {
        let bits = self.shaped(r);
        match self {
            Kind::Any | Kind::DamageInSilence => half(bits),
            _ => half(((bits >> 32) & 0x8000_0000) | ((bits >> 29) & 0x3fff_ffff)),
        }
    }
}

// xorshift: the next state is also the word that is drawn.
fn drawn(x: u64) -> u64 {
    let a = x ^ (x << 13);
    let b = a ^ (a >> 7);
    b ^ (b << 17)
}

// A sign and a fraction, with an exponent that lies up to `spread` below 2^0 (spread is 2^n − 1, so the
// exclusive or takes it off 1023).
fn lowered(r: u64, spread: u64) -> u64 {
    (r & 0x800f_ffff_ffff_ffff) | ((1023 ^ ((r >> 52) & spread)) << 52)
}

// The samples of a block, channel after channel, as bytes; the state afterwards.
pub fn fill(bytes: &mut [u8], format: Format, x: u64, kind: Kind) -> u64 {
    let mut state = x;
    for place in bytes.chunks_exact_mut(sample_bytes(format)) {
        state = drawn(state);
        match format {
            Format::F64 => place.copy_from_slice(&kind.shaped(state).to_le_bytes()),
            Format::F32 => place.copy_from_slice(&kind.single(state).to_le_bytes()),
        }
    }
    state
}

// The bits of a sample.
fn bits(place: &[u8], format: Format) -> u64
    requires { sample_bytes format ≤ length place.now }
{
    match format {
        Format::F64 => u64::from_le_bytes(bytes_at(place, 0)),
        Format::F32 => u64::from(u32::from_le_bytes(bytes_at(place, 0))),
    }
}

// FNV's digest of the bits of the first n frames of planar audio, in bytes, that has `width` frames a channel.
pub fn digest(bytes: &[u8], format: Format, width: usize, n: usize) -> u64 {
    let mut d: u64 = 0xcbf2_9ce4_8422_2325;
    for (i, place) in bytes.chunks_exact(sample_bytes(format)).enumerate() {
        if width != 0 && i % width < n {
            d = (d ^ bits(place, format)).wrapping_mul(0x100_0000_01b3);
        }
    }
    d
}
