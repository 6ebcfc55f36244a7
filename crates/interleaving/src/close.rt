// The frames that fill no tile, interleaved: kept aside while each channel's samples slide together, from the first channel up.
ghost use Rattle.std.specs.Prelude.{◌≡◌, ◌+◌, ◌*◌, ◌≤◌, ◌<◌, length};
ghost use Rattle.audio.specs.Format.{sample_bytes};
ghost use Rattle.audio.specs.Inner.{put};
ghost use Rattle.interleaving.specs.Inner.{Fills, run, slid, Spread};

use crate::moves::{Room, carry, transpose_into};
use crate::shape::Shape;
use crate::table::Table;
use audio::format::sample_bytes;

// One channel's samples of the frames left aside, and its whole frames behind those of the channels before.
fn close_channel(shape: Shape, c: usize, bytes: &mut [u8], kept: &mut Room)
    requires fills { Fills shape bytes.old }
    requires c_lt_channels { c < shape.channels }
    ensures aside { kept.new.bytes ≡ put kept.old.bytes (sample_bytes shape.format * (c * shape.left))
        (run (sample_bytes shape.format) shape.left (c * (64 * shape.tiles + shape.left) + 64 * shape.tiles) bytes.old) }
    ensures closer { bytes.new ≡ slid (sample_bytes shape.format) (64 * shape.tiles) (c * (64 * shape.tiles + shape.left)) (c * (64 * shape.tiles)) bytes.old }
{
    let s = sample_bytes(shape.format);
    let whole = 64 * shape.tiles;
    let frames = whole + shape.left;
    let behind = s * (c * frames + whole);
    kept.keep(
        s * (c * shape.left),
        &bytes[behind..behind + s * shape.left],
    );
    carry(s * whole, s * (c * frames), s * (c * whole), bytes);
}

// Planar audio: into planar tiles, and behind them the frames left, frame after frame.
pub fn close_up(shape: Shape, bytes: &mut [u8])
    requires { Fills shape bytes.old }
    ensures { Spread (sample_bytes shape.format) shape.channels (64 * shape.tiles) shape.left bytes.new bytes.old }
{
    if shape.left == 0 {
        return;
    }
    let mut kept = Room::new();
    for c in 0..shape.channels {
        close_channel(shape, c, bytes, &mut kept);
    }
    let to = sample_bytes(shape.format) * (shape.channels * (64 * shape.tiles));
    let table = Table {
        rows: shape.channels,
        columns: shape.left,
    };
    transpose_into(shape.format, table, &kept.bytes, &mut bytes[to..]);
}
