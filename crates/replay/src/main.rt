// Replays the Rust's recorded answers against the proved code and prints, for each layer, how many
// were replayed and how many differ. `oracle record` writes the files of data/.
#![tactic(auto)]

use crate::banks::Held;
use records::tally::replay;
use std::io;

// Modules 1 and 2 of document 01, and the helpers.
mod leaves;
// Module 3 of document 01.
mod peaks;
// The bank of module 7.
mod banks;

// A million records at most.
const MOST: usize = 1000000;

fn main(rt: HostRuntime) -> io::Result<()> {
    replay(&rt, "leaves", "leaves", MOST, leaves::record)?;
    let mut store = [0.0; 12];
    replay(&rt, "peaks", "peaks", MOST, |file, sample, tally| {
        peaks::record(file, sample, &mut store, tally)
    })?;
    let mut held = Held::new();
    replay(&rt, "bank", "bank", MOST, |file, op, tally| {
        held.record(file, op, tally)
    })
}
