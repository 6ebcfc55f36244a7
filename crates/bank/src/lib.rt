// The parameter smoother bank: up to 8 parameters of shape Step, Linear or OnePole, stepped once per
// 32 frames (driver.rs of the reference).
#![tactic(auto)]

// A parameter's declaration and what setup judges of it.
pub mod param;
// One parameter's smoother.
pub mod smoother;
// The bank and its calls.
pub mod smoother_bank;
// A smoother as words.
pub mod words;
// Refusals as numbers.
pub mod numbers;
