// The calls of a recorded session of the Rust's whole limiter, made again and held to what was recorded.
#![tactic(auto)]

// The samples of a session, and the digest of a call's outputs.
mod samples;
// The head of a session.
pub mod head;
// What its calls answer.
mod answers;
// Its calls.
pub mod calls;
