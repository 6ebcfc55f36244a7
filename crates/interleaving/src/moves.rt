// Bytes, and samples, from place to place.
ghost use Rattle.std.specs.Prelude.{◌≡◌, ℕ, ◌+◌, ◌*◌, ◌≤◌, ◌<◌, length, get_or, take, drop};
ghost use Rattle.audio.specs.Format.{sample_bytes};
ghost use Rattle.audio.specs.Inner.{put};
ghost use Rattle.interleaving.specs.Inner.{piece, Spaced, Transposed};

use crate::table::Table;
use audio::format::Format;
use audio::words::{bytes_at, put_bytes};

// Room for a tile, or for the frames that fill no tile.
#[derive(Drop)]
pub struct Room {
    pub bytes: [u8; 4096],
    ghost long: { length bytes ≡ 4096 },
}

impl Room {
    pub fn new() -> Room
        ensures { (k : ℕ) → get_or result.bytes k 0 ≡ 0 }
    {
        Room { bytes: [0; 4096] }
    }

    pub fn keep(&mut self, at: usize, new: &[u8])
        requires { at + length new.now ≤ 4096 }
        ensures { self.new.bytes ≡ put self.old.bytes at new.now }
    {
        put_bytes(&mut self.bytes, at, new);
    }
}

// n bytes from one place on to another place on, between two slices. For callers: the steps here put parts that they hold (`put_bytes`).
pub fn copy_bytes(n: usize, from: usize, source: &[u8], to: usize, target: &mut [u8])
    requires from_inside { from + n ≤ length source.now }
    requires to_inside { to + n ≤ length target.old }
    ensures { target.new ≡ put target.old to (take n (drop from source.now)) }
{
    target[to..to + n].copy_from_slice(&source[from..from + n]);
}

// n bytes to another place within one slice, where the two may overlap; not a copy onto themselves, which takes long.
pub fn carry(n: usize, from: usize, to: usize, bytes: &mut [u8])
    requires from_inside { from + n ≤ length bytes.old }
    requires to_inside { to + n ≤ length bytes.old }
    ensures { bytes.new ≡ put bytes.old to (take n (drop from bytes.old)) }
{
    if from != to {
        bytes.copy_within(from..from + n, to);
    }
}

// N bytes of a source, piece i of it, into place k: one load and one store.
fn move_piece<const N: usize>(source: &[u8], i: usize, target: &mut [u8], k: usize)
    requires from_inside { N * i + N ≤ length source.now }
    requires to_inside { N * k + N ≤ length target.old }
    ensures { target.new ≡ put target.old (N * k) (piece N i source.now) }
{
    put_bytes(target, N * k, &bytes_at::<N>(source, N * i));
}

// Sample i of a source into place k.
fn move_sample(format: Format, source: &[u8], i: usize, target: &mut [u8], k: usize)
    requires from_inside { sample_bytes format * i + sample_bytes format ≤ length source.now }
    requires to_inside { sample_bytes format * k + sample_bytes format ≤ length target.old }
    ensures { target.new ≡ put target.old (sample_bytes format * k) (piece (sample_bytes format) i source.now) }
{
    match format {
        Format::F64 => move_piece::<8>(source, i, target, k),
        Format::F32 => move_piece::<4>(source, i, target, k),
    }
}

// n samples of a source, each `step` after the one before, one after the other from a place on.
pub fn move_spaced(
    format: Format,
    n: usize,
    source: &[u8],
    from: usize,
    step: usize,
    target: &mut [u8],
    to: usize,
)
    requires from_inside { (k : ℕ) → k < n → sample_bytes format * (from + k * step) + sample_bytes format ≤ length source.now }
    requires to_inside { sample_bytes format * (to + n) ≤ length target.old }
    ensures { Spaced (sample_bytes format) n from step source.now to target.old target.new }
{
    for k in 0..n {
        move_sample(format, source, from + k * step, target, to + k);
    }
}

// A table of samples, stored row after row, column after column.
pub fn transpose_into(format: Format, table: Table<512>, source: &[u8], target: &mut [u8])
    requires source_holds { sample_bytes format * (table.rows * table.columns) ≤ length source.now }
    requires target_holds { sample_bytes format * (table.rows * table.columns) ≤ length target.old }
    ensures { Transposed (sample_bytes format) table.rows table.columns source.now target.new }
{
    for c in 0..table.columns {
        move_spaced(
            format,
            table.rows,
            source,
            c,
            table.columns,
            target,
            c * table.rows,
        );
    }
}
