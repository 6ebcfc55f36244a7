// A call's reply as its number and the words of its values (specs/Answer.antt).
ghost use Rattle.std.specs.Prelude.{◌≡◌, [], ◌∷◌, MatchResult};
ghost use Rattle.arithmetic.specs.Reply.{finished, refused, numbered, count, float};
ghost use Rattle.limiter.specs.Prepare;
ghost use Rattle.bank.specs.Answers.{refusal_reply, param_refusal_reply};
ghost use Rattle.turns.specs.Block.{placed};
ghost use Rattle.driver.specs.Answers.{setup_refused_by, refused_by, flushed_reply, stepped_reply};
ghost use Rattle.host.specs.Answer.{reply_words, words_of, answered};

use arithmetic::pattern::to_bits;
use bank::param::BankRefusal;
use bank::smoother_bank::ParamRefusal;
use driver::answers::{Flushed, GainStepped, Refusal, SetupRefusal};
use frame::highest::Seat;
use limiter::prepare::PrepareRefusal;

#[derive(Clone, Copy)]
pub struct ReplyWords {
    pub number: u32,
    pub words: [u64; 8],
}

// A number alone.
fn bare(number: u32) -> ReplyWords
    ensures { result ≡ reply_words (numbered number) }
{
    ReplyWords {
        number,
        words: [0; 8],
    }
}

// A number with up to two counts.
pub fn pair(number: u32, w0: u64, w1: u64) -> ReplyWords
    ensures { result ≡ reply_words (refused number (count w0 ∷ count w1 ∷ [])) }
{
    ReplyWords {
        number,
        words: [w0, w1, 0, 0, 0, 0, 0, 0],
    }
}

// Finished work with four counts. One function with `pair`, over a slice, would ask how many there are.
fn four(w0: u64, w1: u64, w2: u64, w3: u64) -> ReplyWords
    ensures { result ≡ reply_words (finished (count w0 ∷ count w1 ∷ count w2 ∷ count w3 ∷ [])) }
{
    ReplyWords {
        number: 0,
        words: [w0, w1, w2, w3, 0, 0, 0, 0],
    }
}

impl From<BankRefusal> for ReplyWords {
    ghost from_gives = { λ why t. t ≡ reply_words (refusal_reply why) };

    fn from(why: BankRefusal) -> ReplyWords {
        pair(why.into(), why.index() as u64, 0)
    }
}

impl From<PrepareRefusal> for ReplyWords {
    ghost from_gives = { λ why t. t ≡ reply_words (Prepare.refusal_reply why) };

    fn from(why: PrepareRefusal) -> ReplyWords {
        match why {
            PrepareRefusal::Settings(own) => bare(own.into()),
            PrepareRefusal::OverCap(over) => pair(15, over.needed, over.cap),
            PrepareRefusal::NoHouse => bare(29),
            PrepareRefusal::StoreLength => bare(16),
            PrepareRefusal::Weights => bare(17),
        }
    }
}

impl From<SetupRefusal> for ReplyWords {
    ghost from_gives = { λ why t. t ≡ reply_words (setup_refused_by why) };

    fn from(why: SetupRefusal) -> ReplyWords {
        match why {
            SetupRefusal::Bank(own) => own.into(),
            SetupRefusal::OverBudget(over) => pair(7, over.needed, over.cap),
            SetupRefusal::Limiter(own) => own.into(),
        }
    }
}

// 21 with the event's index.
impl From<Refusal> for ReplyWords {
    ghost from_gives = { λ why t. t ≡ reply_words (refused_by why) };

    fn from(why: Refusal) -> ReplyWords {
        match why {
            Refusal::NotSetUp => bare(18),
            Refusal::StoreLength => bare(16),
            Refusal::OutOfOrder => bare(19),
            Refusal::Geometry => bare(20),
            Refusal::Event { index } => pair(21, index as u64, 0),
            Refusal::TooFar => bare(22),
        }
    }
}

// Finished work that hands nothing back.
impl From<()> for ReplyWords {
    ghost from_gives = { λ _ t. t ≡ reply_words (finished []) };

    fn from(_told: ()) -> ReplyWords {
        bare(0)
    }
}

// The frames written, and 1 where the tail is done.
impl From<Flushed> for ReplyWords {
    ghost from_gives = { λ told t. t ≡ reply_words (flushed_reply told) };

    fn from(told: Flushed) -> ReplyWords {
        pair(0, told.written as u64, u64::from(told.done))
    }
}

impl From<GainStepped> for ReplyWords {
    ghost from_gives = { λ told t. t ≡ reply_words (stepped_reply told) };

    fn from(told: GainStepped) -> ReplyWords {
        ReplyWords {
            number: 0,
            words: [
                to_bits(told.floor),
                told.dropped as u64,
                told.kept as u64,
                told.tally as u64,
                to_bits(told.mean),
                to_bits(told.gain),
                0,
                0,
            ],
        }
    }
}

// What a call returns: what it tells, or why it is refused.
impl<T: Into<ReplyWords>, E: Into<ReplyWords>> From<Result<T, E>> for ReplyWords {
    ghost from_gives = { λ r t. MatchResult r (λ told. T.converts told t) (λ why. E.converts why t) };

    fn from(r: Result<T, E>) -> ReplyWords {
        match r {
            Ok(told) => told.into(),
            Err(why) => why.into(),
        }
    }
}

// Where a block's highest linked peak sat: 1 on a sample, 2 between two of them; the frame, the channel, the phase.
pub fn of_place(frame: usize, seat: Option<Seat>) -> ReplyWords
    ensures { result ≡ reply_words (placed frame seat) }
{
    match seat {
        None => bare(0),
        Some(Seat::OnSample(channel)) => four(1, frame as u64, channel as u64, 0),
        Some(Seat::Between { channel, phase }) => {
            four(2, frame as u64, channel as u64, phase as u64)
        }
    }
}

impl From<ParamRefusal> for ReplyWords {
    ghost from_gives = { λ why t. t ≡ reply_words (param_refusal_reply why) };

    fn from(why: ParamRefusal) -> ReplyWords {
        match why {
            ParamRefusal::NotSetUp => bare(18),
            ParamRefusal::NonFiniteValue { param, value } => pair(23, param as u64, to_bits(value)),
            ParamRefusal::UnknownParam => bare(24),
        }
    }
}

// A parameter's value.
impl From<f64> for ReplyWords {
    ghost from_gives = { λ value t. t ≡ reply_words (finished (float value ∷ [])) };

    fn from(value: f64) -> ReplyWords {
        pair(0, to_bits(value), 0)
    }
}

// A reply's words into the buffer, as many as fit.
pub fn write_answer(buffer: &mut [u64], t: ReplyWords)
    ensures { buffer.new ≡ answered buffer.old (words_of t) }
{
    let n = buffer.len().min(8);
    buffer[..n].copy_from_slice(&t.words[..n]);
}
