// Bytes at a place, and words in them, low byte first.
ghost use Rattle.std.specs.Prelude.{◌≡◌, ◌+◌, ◌*◌, ◌≤◌, length, take, drop};
ghost use Rattle.audio.specs.Bytes.{word_of, bytes_of, bytes_out};
ghost use Rattle.audio.specs.Inner.{put};

// N bytes from a place on: at a known N one load.
pub fn bytes_at<const N: usize>(bytes: &[u8], at: usize) -> [u8; N]
    requires { at + N ≤ length bytes.now }
    ensures { result ≡ take N (drop at bytes.now) }
{
    let mut taken = [0; N];
    taken.copy_from_slice(&bytes[at..at + N]);
    taken
}

// Bytes into their place.
pub fn put_bytes(bytes: &mut [u8], at: usize, new: &[u8])
    requires { at + length new.now ≤ length bytes.old }
    ensures { bytes.new ≡ put bytes.old at new.now }
{
    bytes[at..at + new.len()].copy_from_slice(new);
}

// The word at a place.
pub fn word(bytes: &[u8], at: usize) -> u64
    requires { at + 8 ≤ length bytes.now }
    ensures { result ≡ word_of (take 8 (drop at bytes.now)) }
{
    u64::from_le_bytes(bytes_at(bytes, at))
}

// A word into its place.
pub fn put_word(bytes: &mut [u8], at: usize, w: u64)
    requires { at + 8 ≤ length bytes.old }
    ensures { bytes.new ≡ put bytes.old at (bytes_of 8 w) }
{
    put_bytes(bytes, at, &w.to_le_bytes());
}

// The bytes of words.
pub fn write_words(bytes: &mut [u8], words: &[u64])
    requires { length bytes.old ≡ 8 * length words.now }
    ensures { bytes.new ≡ bytes_out 8 words.now }
{
    let n = words.len();
    for i in 0..n {
        put_word(bytes, 8 * i, words[i]);
    }
}
