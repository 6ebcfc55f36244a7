// The frames that fill no tile, deinterleaved: kept aside while each channel's samples slide to their place, from the last channel down.
ghost use Rattle.std.specs.Prelude.{◌≡◌, ◌+◌, ◌*◌, ◌≤◌, ◌<◌, length};
ghost use Rattle.audio.specs.Format.{sample_bytes};
ghost use Rattle.interleaving.specs.Inner.{Fills, slid, Spaced, Spread};

use crate::moves::{Room, carry, move_spaced};
use crate::shape::Shape;
use audio::format::sample_bytes;

// One channel's whole frames to their place, and its samples of the frames left behind them.
fn spread_channel(shape: Shape, c: usize, bytes: &mut [u8], kept: &Room)
    requires fills { Fills shape bytes.old }
    requires c_lt_channels { c < shape.channels }
    ensures { Spaced (sample_bytes shape.format) shape.left c shape.channels kept.now.bytes (c * (64 * shape.tiles + shape.left) + 64 * shape.tiles)
        (slid (sample_bytes shape.format) (64 * shape.tiles) (c * (64 * shape.tiles)) (c * (64 * shape.tiles + shape.left)) bytes.old) bytes.new }
{
    let s = sample_bytes(shape.format);
    let whole = 64 * shape.tiles;
    let frames = whole + shape.left;
    carry(s * whole, s * (c * whole), s * (c * frames), bytes);
    move_spaced(
        shape.format,
        shape.left,
        &kept.bytes,
        c,
        shape.channels,
        bytes,
        c * frames + whole,
    );
}

// Planar tiles, and behind them the frames left, frame after frame: into planar audio.
pub fn spread(shape: Shape, bytes: &mut [u8])
    requires { Fills shape bytes.old }
    ensures { Spread (sample_bytes shape.format) shape.channels (64 * shape.tiles) shape.left bytes.old bytes.new }
{
    if shape.left == 0 {
        return;
    }
    let from = sample_bytes(shape.format) * (shape.channels * (64 * shape.tiles));
    let mut kept = Room::new();
    kept.keep(0, &bytes[from..]);
    for c in (0..shape.channels).rev() {
        spread_channel(shape, c, bytes, &kept);
    }
}
