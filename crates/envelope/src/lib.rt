// From a required gain to the gain that is applied (`step_env` of limiter.rs): the attack row over the
// floors, its weighted mean, and how the gain follows it.
#![tactic(auto)]

// The attack row and its mean.
pub mod row;
// The attack row over a run.
pub mod means;
// The gain's attack and release.
pub mod follow;
// What a gain step goes on from.
pub mod env;
