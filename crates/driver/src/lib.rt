// Module 7 of document 01: the driver (driver.rs), the limiter whole.
#![tactic(auto)]

// The state.
pub mod state;
// What each call answers.
pub mod answers;
// What 18, 16 and 19 judge.
pub mod ready;
// The parameter call, and the reading of a value.
pub mod params;
// Reset.
pub mod reset;
// Setup.
pub mod setup;
// The lone gain step.
pub mod gain;
// Events: 21.
mod events;
// A block.
pub mod process;
// A drain.
pub mod flush;
