// Rows of 64 samples, moved along the cycles of their order, each row once.
ghost use Rattle.std.specs.Prelude.{◌≡◌, false, ◌||◌, ℕ, ◌+◌, ◌*◌, ◌≤◌, ◌<◌, eqb, length};
ghost use Rattle.interleaving.specs.Inner.{bit_at, TransposedFirst};
ghost use Rattle.interleaving.specs.Walks.{Closed, Walked};

use crate::moves::carry;
use crate::table::Table;
use audio::words::put_bytes;

// Which of 8,192 rows are done.
// A bit for each, in fixed memory, and no set, which allocates.
#[derive(Drop)]
struct Done {
    bits: [u8; 1024],
}

impl Done {
    fn none() -> Done
        ensures { (k : ℕ) → bit_at result.bits k ≡ false }
    {
        Done { bits: [0; 1024] }
    }

    fn is_done(&self, k: usize) -> bool
        requires { k < 8192 }
        ensures { result ≡ bit_at self.now.bits k }
    {
        (self.bits[k / 8] >> (k % 8)) % 2 == 1
    }

    fn mark(&mut self, k: usize)
        requires { k < 8192 }
        ensures { (i : ℕ) → bit_at self.new.bits i ≡ (eqb i k || bit_at self.old.bits i) }
    {
        self.bits[k / 8] |= 1 << (k % 8);
    }
}

// Room for a row.
fn row() -> [u8; 512] {
    [0; 512]
}

// The cycle of one place, unless it is done: each row to its place, from the first on, whose own is kept until the end.
fn walk(
    size: usize,
    table: Table<8192>,
    start: usize,
    bytes: &mut [u8],
    kept: &mut [u8],
    done: &mut Done,
)
    requires size_bound { size ≤ length kept.old }
    requires start_inside { start < table.rows * table.columns }
    requires rows_inside { size * (table.rows * table.columns) ≤ length bytes.old }
    requires closed { Closed table.rows table.columns done.old.bits }
    ensures { Walked size table.rows table.columns start bytes.old done.old.bits bytes.new done.new.bits }
{
    if done.is_done(start) {
        return;
    }
    let first = size * start;
    put_bytes(kept, 0, &bytes[first..first + size]);
    let mut at = start;
    let mut from = table.source_of(at);
    done.mark(at);
    while from != start {
        carry(size, size * from, size * at, bytes);
        at = from;
        done.mark(at);
        from = table.source_of(at);
    }
    put_bytes(bytes, size * at, &kept[..size]);
}

// A table of rows of `size` bytes, at the start, stored row after row: column after column.
pub fn transpose_rows(size: usize, table: Table<8192>, bytes: &mut [u8])
    requires size_bound { size ≤ 512 }
    requires rows_inside { size * (table.rows * table.columns) ≤ length bytes.old }
    ensures { TransposedFirst size table.rows table.columns bytes.old bytes.new }
{
    let mut kept = row();
    let mut done = Done::none();
    let n = table.rows * table.columns;
    for start in 0..n {
        walk(size, table, start, bytes, &mut kept, &mut done);
    }
}
