// The highest linked peak of a block so far (Change 5).
ghost use Rattle.std.specs.Prelude.{◌≡◌};
ghost use Rattle.frame.specs.Place.{start_of};

// Where a frame's peak sat: on the sample of a channel, or between two of them, in a phase of a channel's detector.
#[derive(Clone, Copy)]
pub enum Seat {
    OnSample(usize),
    Between { channel: usize, phase: usize },
}

// The highest linked peak so far, the frame of its block and where it sat there; nowhere where none is above 0.0.
#[derive(Clone, Copy)]
pub struct Highest {
    pub peak: f64,
    pub frame: usize,
    pub seat: Option<Seat>,
}

// At a block's start. No peak is above an infinity: in a block that is not asked for its place none takes it, and no
// sum is computed to find one.
// An Option in its place would be a case in each pass of a run.
pub fn start_of(asked: bool) -> Highest
    ensures { result ≡ start_of asked }
{
    Highest {
        peak: if asked { 0.0 } else { f64::INFINITY },
        frame: 0,
        seat: None,
    }
}
