// What a gain step goes on from and what it tells: `step_env` of limiter.rs.
use crate::row::AttackRow;
use keeper::FloorKeeper;

// What a gain step goes on from.
#[derive(Clone, Copy)]
pub struct Envelope {
    pub keeper: FloorKeeper,
    pub attack: AttackRow,
    // the gain applied last
    pub gain: f64,
}

// What a gain step tells, and the envelope afterwards, whose gain is the one to apply.
#[derive(Clone, Copy)]
pub struct GainStep {
    pub floor: f64,
    pub dropped: usize,
    pub mean: f64,
    pub env: Envelope,
}
