// The call: interleaved audio into planar, within a lent slice, and back.
ghost use Rattle.std.specs.Prelude.{◌≡◌, List, ℕ, length, IfOk};
ghost use Rattle.arithmetic.specs.Reply.{numbered};
ghost use Rattle.audio.specs.Format.{sample_bytes, size_of};
ghost use Rattle.interleaving.specs.Inner.{frames_of, Taken, Shaped, Transposed, rows_in, columns_in};
ghost use Rattle.interleaving.specs.Calls.{refused_by, rearranged_reply, refusal, outcome, rearrange_of};

use crate::close::close_up;
use crate::rows::transpose_rows;
use crate::shape::Shape;
use crate::spread::spread;
use crate::table::Table;
use crate::tiles::transpose_tiles;
use audio::format::{Format, sample_bytes, size_of};

// From frame after frame, as files hold audio, to channel after channel, as a block takes it; or back.
#[derive(Clone, Copy)]
pub enum Direction {
    Deinterleave,
    Interleave,
}

// Why a call is refused: its channels, 27; its length, 28.
#[derive(Clone, Copy, Debug, PartialEq, Eq)]
pub enum RearrangeRefusal {
    Channels,
    Length,
}

impl From<RearrangeRefusal> for u32 {
    ghost from_gives = { λ refusal n. n ≡ refused_by refusal };

    fn from(refusal: RearrangeRefusal) -> u32 {
        match refusal {
            RearrangeRefusal::Channels => 27,
            RearrangeRefusal::Length => 28,
        }
    }
}

// Frame after frame: channel after channel. That there is a channel, and no more audio than a call takes, stands in a clause: a
// `Shape` says what the public steps ask, and no more.
fn deinterleave_through(shape: Shape, bytes: &mut [u8])
    requires { Taken shape.format shape.channels (frames_of shape) (length bytes.old) }
    ensures { Transposed (sample_bytes shape.format) (frames_of shape) shape.channels bytes.old bytes.new }
{
    let channels = shape.channels;
    let tiles = shape.tiles;
    let tile = Table {
        rows: 64,
        columns: channels,
    };
    let rows = Table {
        rows: tiles,
        columns: channels,
    };
    transpose_tiles(shape.format, tile, tiles, bytes);
    transpose_rows(64 * sample_bytes(shape.format), rows, bytes);
    spread(shape, bytes);
}

// Channel after channel: frame after frame, by the same steps backwards.
// One function for both directions would ask at each step which one it is.
fn interleave_through(shape: Shape, bytes: &mut [u8])
    requires { Taken shape.format shape.channels (frames_of shape) (length bytes.old) }
    ensures { Transposed (sample_bytes shape.format) shape.channels (frames_of shape) bytes.old bytes.new }
{
    let channels = shape.channels;
    let tiles = shape.tiles;
    let rows = Table {
        rows: channels,
        columns: tiles,
    };
    let tile = Table {
        rows: channels,
        columns: 64,
    };
    close_up(shape, bytes);
    transpose_rows(64 * sample_bytes(shape.format), rows, bytes);
    transpose_tiles(shape.format, tile, tiles, bytes);
}

// Either direction: a value, which the definitions go by (`rearrange_of`), and so no closure.
fn through(direction: Direction, shape: Shape, bytes: &mut [u8])
    requires { Taken shape.format shape.channels (frames_of shape) (length bytes.old) }
    ensures { Transposed (sample_bytes shape.format) (rows_in direction shape.channels (frames_of shape)) (columns_in direction shape.channels (frames_of shape)) bytes.old bytes.new }
{
    match direction {
        Direction::Deinterleave => deinterleave_through(shape, bytes),
        Direction::Interleave => interleave_through(shape, bytes),
    }
}

// What a call of so many samples rearranges, unless it is refused.
fn judge(format: Format, channels: usize, samples: usize) -> Result<Shape, RearrangeRefusal>
    ensures refused { (bytes : List ℕ) → samples ≡ size_of format bytes → rearranged_reply result ≡ numbered (refusal format channels bytes) }
    ensures shape { IfOk result (Shaped format channels samples) }
{
    if (channels < 1) | (8 < channels) {
        return Err(RearrangeRefusal::Channels);
    }
    if (524288 < samples) | (samples % channels != 0) {
        return Err(RearrangeRefusal::Length);
    }
    let frames = samples / channels;
    Ok(Shape {
        format,
        channels,
        tiles: frames / 64,
        left: frames % 64,
    })
}

// Rearranges audio within the slice; a refused call leaves it as it was.
pub fn rearrange(
    direction: Direction,
    format: Format,
    channels: usize,
    bytes: &mut [u8],
) -> Result<(), RearrangeRefusal>
    ensures { outcome result bytes.new ≡ rearrange_of direction format channels bytes.old }
{
    let shape = judge(format, channels, size_of(format, bytes))?;
    // one channel is the same in both orders
    if channels == 1 {
        return Ok(());
    }
    through(direction, shape, bytes);
    Ok(())
}
