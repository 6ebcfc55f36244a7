// What the calls answer: finished work, or one refusal of document 01's table.
ghost use Rattle.std.specs.Prelude.{◌≡◌};
ghost use Rattle.driver.specs.declared.answers.SetupRefusal.TheVariants.{Bank, OverBudget, Limiter};

use bank::param::BankRefusal;
use frame::highest::Seat;
use limiter::prepare::PrepareRefusal;
use settings::memory::OverCap;

// Why a setup is refused: the bank's own (1 to 6), the bank over the cap (7), the limiter's own (8 to 17, 29).
#[derive(Clone, Copy, Debug, PartialEq, Eq)]
pub enum SetupRefusal {
    Bank(BankRefusal),
    OverBudget(OverCap),
    Limiter(PrepareRefusal),
}

impl From<BankRefusal> for SetupRefusal {
    ghost from_gives = { λ why r. r ≡ Bank why };

    fn from(why: BankRefusal) -> SetupRefusal {
        SetupRefusal::Bank(why)
    }
}

impl From<OverCap> for SetupRefusal {
    ghost from_gives = { λ over r. r ≡ OverBudget over };

    fn from(over: OverCap) -> SetupRefusal {
        SetupRefusal::OverBudget(over)
    }
}

impl From<PrepareRefusal> for SetupRefusal {
    ghost from_gives = { λ why r. r ≡ Limiter why };

    fn from(why: PrepareRefusal) -> SetupRefusal {
        SetupRefusal::Limiter(why)
    }
}

// Why a call on a limiter is refused: 18, 16, 19, 20, 21 with the event's index, 22.
#[derive(Clone, Copy, Debug, PartialEq, Eq)]
pub enum Refusal {
    NotSetUp,
    StoreLength,
    OutOfOrder,
    Geometry,
    Event { index: usize },
    TooFar,
}

// A finished block: the first frame with the highest linked peak, and where that sat; where it sat nowhere,
// nothing is said of a frame.
#[derive(Clone, Copy)]
pub struct Processed {
    pub frame: usize,
    pub seat: Option<Seat>,
}

// A finished drain: the frames written, and whether the tail is done.
#[derive(Clone, Copy, Debug, PartialEq, Eq)]
pub struct Flushed {
    pub written: usize,
    pub done: bool,
}

// A finished gain step: the floor, the entries dropped and kept, the tally, the mean and the gain.
#[derive(Clone, Copy, Debug, PartialEq)]
pub struct GainStepped {
    pub floor: f64,
    pub dropped: usize,
    pub kept: usize,
    pub tally: usize,
    pub mean: f64,
    pub gain: f64,
}
