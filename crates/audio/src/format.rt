// The sample type of a call.
ghost use Rattle.std.specs.Prelude.{◌≡◌};
ghost use Rattle.audio.specs.Format.{sample_bytes, size_of};

// How a sample is stored, low byte first. A value and no type parameter: the C functions and the definitions go by it, and
// what depends on it is a `match` where a sample is read or written.
#[derive(Clone, Copy)]
pub enum Format {
    F64,
    F32,
}

// The bytes of a sample.
pub fn sample_bytes(format: Format) -> usize
    ensures { result ≡ sample_bytes format }
{
    match format {
        Format::F64 => 8,
        Format::F32 => 4,
    }
}

// The length of a call's audio, in samples; the largest number of all where a part of a sample is
// left over.
// It stays a number and no Option: `size_of`, by which 20 and 28 are defined, keeps its meaning.
pub fn size_of(format: Format, bytes: &[u8]) -> usize
    ensures { result ≡ size_of format bytes.now }
{
    let n = bytes.len();
    let each = sample_bytes(format);
    if n % each == 0 { n / each } else { usize::MAX }
}
