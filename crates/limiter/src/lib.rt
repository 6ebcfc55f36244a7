// Module 6 of document 01: the limiter kernel that the driver runs (limiter.rs).
#![tactic(auto)]

// The state.
pub mod state;
// Lengths of the lent stores.
pub mod stores;
// Setup.
pub mod prepare;
// The kernel's share of 18, 16 and 19.
pub mod order;
// Reset.
pub mod reset;
// Runs of frames: render and drain.
pub mod run;
