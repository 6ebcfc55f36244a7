// Audio as its tiles and the frames left.
ghost use Rattle.std.specs.Prelude.{◌≤◌, ◌<◌};

use audio::format::Format;

// Channels of whole tiles of 64 frames, and of the frames left, which fill none.
// The bytes go beside it, with `Fills`: a struct that lends them too would want a clause for the loan in each function.
#[derive(Clone, Copy)]
pub struct Shape {
    pub format: Format,
    pub channels: usize,
    pub tiles: usize,
    pub left: usize,
    ghost few: { channels ≤ 8 },
    ghost short: { left < 64 },
    ghost bounded: { tiles ≤ 8192 },
}
