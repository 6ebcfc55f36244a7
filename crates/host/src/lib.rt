// The C functions (numbers and bytes). Crate `host_c` exports them; include/daggeryuzu.h declares them.
#![tactic(auto)]

// What a call answers, as words.
pub mod answer;
// The limiter's.
pub mod calls;
// A file's audio.
pub mod files;
