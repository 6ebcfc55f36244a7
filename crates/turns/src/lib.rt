// The turns of blocks and drains that nothing refuses (driver.rs: `drive`).
#![tactic(auto)]

// How events latch.
pub mod events;
// One turn of a block.
pub mod turn;
// The turns of a block.
pub mod drive;
// The runs of a drain.
pub mod drain;
