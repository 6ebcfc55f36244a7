// C functions over the leaves and inner steps, for the comparison with the Rust alone: the renderer's
// C functions are another crate's. Numbers cross as themselves, a state as words.
#![tactic(auto)]

// Module 1 and 2 of document 01, and the helpers.
pub mod leaves;
// Module 3 of document 01.
pub mod peaks;
// Module 4 of document 01.
pub mod floors;
// What setup derives and judges: module 6 of document 01.
pub mod setup;
// The parameter bank of module 7.
pub mod smoothers;
