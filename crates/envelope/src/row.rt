// The attack row: the latest L floors, in a lent ring.
ghost use Rattle.std.specs.Prelude.{◌≡◌, true, ◌<◌, length};
ghost use Rattle.envelope.specs.Row.{down, newest_first, other_than_one, tally_of, next_pos, rowed_at, pushed, all_unit, row_in_order};
ghost use Rattle.envelope.specs.Mean.{weighted_from, mean_of};

use arithmetic::number::unit;

// The Rust's wm_pos and wm_nonunity.
#[derive(Clone, Copy)]
pub struct AttackRow {
    // where the next floor goes: the oldest one's place
    pub pos: usize,
    // how many floors are other than 1
    pub tally: usize,
}

// 1 for a floor other than 1.
fn other_than_one(floor: f64) -> usize
    ensures { result ≡ other_than_one floor }
{
    usize::from(floor != 1.0)
}

// The position after this one, round at the end of l places: the attack row's, and a delay line's. One place on needs a test
// alone, and the keeper's `wrap` goes round at most once: neither is `pos_after`, which goes n places on.
pub fn next_pos(l: usize, pos: usize) -> usize
    requires { pos < l }
    ensures value { result ≡ next_pos l pos }
    ensures inside { result < l }
{
    let next = pos + 1;
    if next == l { 0 } else { next }
}

// The products of these weights and floors, the floors read downward, added to acc.
fn weighted(acc: f64, weights: &[f64], floors: &[f64]) -> f64
    requires { length weights.now ≡ length floors.now }
    ensures { result ≡ weighted_from acc weights.now (down floors.now 0 (length floors.now)) }
{
    let n = floors.len();
    let mut sum = acc;
    for i in 0..n {
        sum = sum + weights[i] * floors[n - 1 - i];
    }
    sum
}

// Whether every floor lies within 0 and 1. It reads the whole row, without a way out: by `all`, a third slower.
fn all_unit(row: &[f64]) -> bool
    ensures { result ≡ all_unit row.now }
{
    let mut ok = true;
    for floor in row {
        ok &= unit(*floor);
    }
    ok
}

// How many floors are other than 1.
fn tally_of(row: &[f64]) -> usize
    ensures { result ≡ tally_of row.now }
{
    let mut n = 0;
    for floor in row {
        n += other_than_one(*floor);
    }
    n
}

impl AttackRow {
    // Whether the row is in order: within 0 and 1, the tally true, the position in it.
    pub fn in_order(self, row: &[f64]) -> bool
        ensures { result ≡ row_in_order self row.now }
    {
        let tally = tally_of(row);
        let counted = (self.tally == tally) & (self.pos < row.len());
        // where no floor counts, all are 1.0, and the row is read once
        if tally == 0 {
            return counted;
        }
        all_unit(row) & counted
    }

    // The floor replaces the oldest.
    #[tactic(auto, using(crate::proofs::Tally::placed))]
    pub fn push(self, row: &mut [f64], floor: f64) -> AttackRow
        requires { row_in_order self row.old ≡ true }
        ensures { rowed_at result row.new ≡ pushed self row.old floor }
    {
        let pos = self.pos;
        let old = other_than_one(row[pos]);
        row[pos] = floor;
        AttackRow {
            pos: next_pos(row.len(), pos),
            tally: self.tally - old + other_than_one(floor),
        }
    }

    // The weighted mean of the row, newest floor first; exactly 1.0 where every floor is 1.0.
    #[tactic(auto, using(crate::proofs::Tally::placed))]
    pub fn mean(self, weights: &[f64], row: &[f64]) -> f64
        requires row_ordered { row_in_order self row.now ≡ true }
        requires weights_len { length weights.now ≡ length row.now }
        ensures { result ≡ mean_of weights.now (newest_first self.pos row.now) }
    {
        if self.tally == 0 {
            return 1.0;
        }
        let pos = self.pos;
        let newer = weighted(0.0, &weights[..pos], &row[..pos]);
        weighted(newer, &weights[pos..], &row[pos..])
    }
}
