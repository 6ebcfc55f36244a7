// Tiles of 64 frames, each transposed through a room: memory is read and written in order.
ghost use Rattle.std.specs.Prelude.{◌≡◌, ◌+◌, ◌*◌, ◌≤◌, length};
ghost use Rattle.audio.specs.Format.{sample_bytes};
ghost use Rattle.interleaving.specs.Inner.{Transposed, TransposedEach};

use crate::moves::{Room, transpose_into};
use crate::table::Table;
use audio::format::{Format, sample_bytes};

// One tile.
fn transpose_tile(format: Format, table: Table<512>, tile: &mut [u8], room: &mut Room)
    requires { length tile.old ≡ sample_bytes format * (table.rows * table.columns) }
    ensures { Transposed (sample_bytes format) table.rows table.columns tile.old tile.new }
{
    room.keep(0, tile);
    transpose_into(format, table, &room.bytes, tile);
}

// The tiles at the start.
pub fn transpose_tiles(format: Format, table: Table<512>, tiles: usize, bytes: &mut [u8])
    requires tiles_bound { tiles ≤ 8192 }
    requires tiles_inside { tiles * (sample_bytes format * (table.rows * table.columns)) ≤ length bytes.old }
    ensures { TransposedEach (sample_bytes format) table.rows table.columns tiles bytes.old bytes.new }
{
    // a room is cleared only where it is used
    if tiles == 0 {
        return;
    }
    let size = sample_bytes(format) * (table.rows * table.columns);
    let mut room = Room::new();
    for t in 0..tiles {
        let at = t * size;
        transpose_tile(format, table, &mut bytes[at..at + size], &mut room);
    }
}
