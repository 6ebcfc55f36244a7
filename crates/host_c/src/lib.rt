// What a renderer links: the functions of crate `host` under their C names. include/daggeryuzu.h declares them.
#![tactic(auto)]

// The limiter's.
pub mod calls;
// A file's audio.
pub mod files;
