// A call's audio: planar, in bytes, of a sample type.
#![tactic(auto)]

// The sample type.
pub mod format;

// Words in bytes.
pub mod words;

// A run's frames out of a call's bytes, and into them.
pub mod planar;
