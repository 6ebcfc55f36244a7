// Interleaved audio, frame after frame, into planar audio, channel after channel, within a lent slice, and back. It moves
// bytes and decodes nothing.
#![tactic(auto)]

// Whole tiles of 64 frames, and the frames left.
pub mod shape;

// Tables, and the row that comes to a place of one.
pub mod table;

// Bytes, and samples, from place to place.
pub mod moves;

// Tiles of 64 frames, each transposed through a room.
pub mod tiles;

// Rows of 64 samples, moved along the cycles of their order.
pub mod rows;

// The frames that fill no tile, deinterleaved.
pub mod spread;

// The frames that fill no tile, interleaved.
pub mod close;

// The call, in either direction.
pub mod calls;
