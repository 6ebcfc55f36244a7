// The house weights: the Rust's for 1.5 ms at four rates, which no host need compute (document 02, Change 6).
ghost use Rattle.std.specs.Prelude.{◌≡◌, ◌+◌, ◌≤◌, true, length, take, drop, is_some};
ghost use Rattle.std.specs.Option.{unwrap_or};
ghost use Rattle.settings.specs.Derived.{row_of};
ghost use Rattle.settings.specs.House.{house_end, house_start, house_fits, house_of};
ghost use Rattle.settings.specs.HouseTable.{house};

use crate::house_table::HOUSE;

// Where the weights of a rate and look begin, of which the table has four: one table, since each that an arm names would be
// laid on the stack there.
#[tactic(auto, unfolding(crate::specs::House::house_start))]
fn start(rate: u32, look: usize) -> Option<usize>
    ensures value { unwrap_or result house_end ≡ house_start rate look }
    ensures found { is_some result ≡ house_fits rate look }
{
    match (rate, look) {
        (44100, 66) => Some(0),
        (48000, 72) => Some(55),
        (96000, 144) => Some(116),
        (192000, 288) => Some(249),
        _ => None,
    }
}

// Whether there are house weights of a rate and look.
pub fn fits(rate: u32, look: usize) -> bool
    ensures { result ≡ house_fits rate look }
{
    start(rate, look).is_some()
}

// As much of a table, from a place on, as there is to fill.
fn copy(table: &[f64], from: usize, into: &mut [f64])
    requires { from + length into.old ≤ length table.now }
    ensures { into.new ≡ take (length into.old) (drop from table.now) }
{
    into.copy_from_slice(&table[from..from + into.len()]);
}

// As much of the house table, from a place on, as there is to fill.
fn copy_house(from: usize, into: &mut [f64])
    requires { from + length into.old ≤ house_end }
    ensures { into.new ≡ take (length into.old) (drop from house) }
{
    copy(&HOUSE, from, into);
}

// Fills the weights store with those of a rate and look.
pub fn fill(rate: u32, look: usize, weights: &mut [f64])
    requires housed { house_fits rate look ≡ true }
    requires weights_len { length weights.old ≡ row_of look }
    ensures { weights.new ≡ house_of rate look }
{
    copy_house(start(rate, look).unwrap(), weights);
}
