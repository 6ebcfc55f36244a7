// Document 01's number of each refusal, and the index that a refused setup names.
ghost use Rattle.std.specs.Prelude.{◌≡◌};
ghost use Rattle.bank.specs.Answers.{index_of, refusal_reply, param_refusal_reply};

use crate::param::BankRefusal;
use crate::smoother_bank::ParamRefusal;

impl From<BankRefusal> for u32 {
    ghost from_gives = { λ why n. n ≡ (refusal_reply why).number };

    fn from(why: BankRefusal) -> u32 {
        match why {
            BankRefusal::TooMany => 1,
            BankRefusal::Id(_) => 2,
            BankRefusal::Range(_) => 3,
            BankRefusal::DefaultNotFinite(_) => 4,
            BankRefusal::DefaultOutside(_) => 5,
            BankRefusal::SmoothingTime(_) => 6,
        }
    }
}

impl BankRefusal {
    // 0 where it names none: no Option, since a reply's words say no more.
    pub fn index(self) -> usize
        ensures { result ≡ index_of self }
    {
        match self {
            BankRefusal::TooMany => 0,
            BankRefusal::Id(i)
            | BankRefusal::Range(i)
            | BankRefusal::DefaultNotFinite(i)
            | BankRefusal::DefaultOutside(i)
            | BankRefusal::SmoothingTime(i) => i,
        }
    }
}

impl From<ParamRefusal> for u32 {
    ghost from_gives = { λ why n. n ≡ (param_refusal_reply why).number };

    fn from(why: ParamRefusal) -> u32 {
        match why {
            ParamRefusal::NotSetUp => 18,
            ParamRefusal::NonFiniteValue { param: _, value: _ } => 23,
            ParamRefusal::UnknownParam => 24,
        }
    }
}
