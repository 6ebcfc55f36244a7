// The inter-sample peak detector: module 3 of document 01. For every store and sample the answer and
// the store afterwards equal a definition of specs/.
#![tactic(auto)]

pub mod answer;
pub mod oversample;
mod phases;
pub mod quiet;
mod taps;
