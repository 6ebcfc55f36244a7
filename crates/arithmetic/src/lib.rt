// Leaf arithmetic: what every layer above computes with. Each function equals a definition of
// specs/ for every f64.
#![tactic(auto)]

// The small helpers in place of Rust's methods on f64.
pub mod number;
// Module 1 of document 01.
pub mod sanitize;
// Module 2 of document 01: `exp` alone.
pub mod math;
// An f64 and its bit pattern.
pub mod pattern;
// An f64 and the f32 values.
pub mod narrow;
