// The byte count of the stores and a cap on it (memory.rs).
ghost use Rattle.std.specs.Prelude.{◌≡◌, ◌≤◌};
ghost use Rattle.settings.specs.Derived.{row_of};
ghost use Rattle.settings.specs.Memory.{counted, bytes_of, needed, cap_judged, left_of};

use crate::accepted::channels_taken;
use keeper::look_taken;

// The bytes of the stores for so many channels and that look. Outside 1 to 8 channels and a look of
// 11 to 4,096 nothing is counted: the largest number, which only the largest cap takes. It stays a number and no Option,
// since the C interface gives it (`daggeryuzu_bytes_needed`).
pub fn bytes_needed(channels: usize, look: usize) -> u64
    ensures { result ≡ needed channels look }
{
    if is_counted(channels, look) {
        bytes_of(channels, look)
    } else {
        18446744073709551615
    }
}

fn is_counted(channels: usize, look: usize) -> bool
    ensures { result ≡ counted channels look }
{
    channels_taken(channels) & look_taken(look)
}

// Eight bytes a number: the delay lines, marks and minima, weights and attack row, and for each
// channel the detector's 48 taps and 12 samples.
fn bytes_of(channels: usize, look: usize) -> u64
    requires channels_bound { channels ≤ 8 }
    requires look_bound { look ≤ 4096 }
    ensures { result ≡ bytes_of channels look }
{
    let n = channels * look + 2 * (look + 1) + 2 * row_len(look) + 60 * channels;
    8 * (n as u64)
}

// L: look − 11, at least 1.
pub fn row_len(look: usize) -> usize
    ensures { result ≡ row_of look }
{
    look.saturating_sub(11).max(1)
}

// 7 and 15: the bytes needed, and the cap that they are over.
#[derive(Clone, Copy, Debug, PartialEq, Eq)]
pub struct OverCap {
    pub needed: u64,
    pub cap: u64,
}

// Whether a cap takes the bytes needed. Without one there is no limit.
pub fn judge_cap(needed: u64, cap: Option<u64>) -> Result<(), OverCap>
    ensures { result ≡ cap_judged needed cap }
{
    match cap {
        Some(cap) if cap < needed => Err(OverCap { needed, cap }),
        _ => Ok(()),
    }
}

// What is left of the cap once so many bytes are taken; nothing where they do not fit.
pub fn left_of(bytes: u64, cap: Option<u64>) -> Option<u64>
    ensures { result ≡ left_of bytes cap }
{
    cap.map(|most| most.saturating_sub(bytes))
}
