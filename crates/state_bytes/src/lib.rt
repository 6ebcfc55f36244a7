// The limiter with its bank as 512 bytes: 64 words, low byte first (specs/State.antt).
#![tactic(auto)]

// Out of a buffer.
pub mod read;
// Into a buffer.
pub mod write;
// A block of what is kept.
pub mod block;
