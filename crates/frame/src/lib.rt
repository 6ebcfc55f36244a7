// One run of frames through the limiter (`render` and `flush` of limiter.rs): linked peak, required gain,
// gain step, delayed output.
#![tactic(auto)]

// The stores that a host lends.
pub mod stores;
// What the passes go over.
mod span;
// The linked peak over the counted channels.
mod peaks;
// The highest of them so far.
pub mod highest;
// Where it sat.
mod peak_place;
// Required gains and gain steps.
pub mod gains;
// The delayed outputs.
mod outputs;
// A run in passes.
pub mod render;
