// The parameter bank. It crosses in lent words (specs/Smoothers.antt).
ghost use Rattle.std.specs.Prelude.{◌≡◌, ◌<◌, ◌*◌};
ghost use Rattle.std.proofs.lemmas.List.Edits.{sets};
ghost use Rattle.bank.specs.Answers.{param_refusal_reply};
ghost use Rattle.bank.specs.Bank.{set_up_at, param_set_at};
ghost use Rattle.probe.specs.Smoothers.{bank_in, infos_in, slots_out, held_at, words_by, done_by, read_by, called_by, set_up_by, call_by};

use arithmetic::pattern::to_bits;
use bank::param::{BankRefusal, ParamInfo};
use bank::smoother::Smoother;
use bank::smoother_bank::{ParamRefusal, SmootherBank};
use bank::words::{half_in, smoother_in, smoother_out};
use std::array::from_fn;

// What a call came to: document 01's number, the count that its reply holds, or 0, the bits of the
// value that it holds, or what the place of it held, and the bank: numbers, as they go into the words.
#[derive(Clone, Copy)]
struct Done {
    number: u32,
    count: u64,
    value: u64,
    bank: SmootherBank,
}

// The bank.
fn bank_in(words: &[u64; 101]) -> SmootherBank
    ensures { result ≡ bank_in words.now }
{
    SmootherBank {
        smoothers: from_fn(|i| smoother_in(words, 12 * i)),
        count: words[96] as usize,
        rate: half_in(words, 97),
        ready: words[98] != 0,
    }
}

// The declarations that the slots hold.
fn infos_in(words: &[u64; 101]) -> [ParamInfo; 8]
    ensures { result ≡ infos_in words.now }
{
    from_fn(|i| smoother_in(words, 12 * i).info())
}

// The slots into their words, twelve each.
fn lay_slots(words: &mut [u64; 101], slots: [Smoother; 8])
    ensures { words.new ≡ sets words.old 0 (slots_out slots) }
{
    words[..96].copy_from_slice(slots.map(smoother_out).as_flattened());
}

// What a call came to into the words.
fn lay(words: &mut [u64; 101], done: Done)
    ensures { words.new ≡ words_by words.old done }
{
    let bank = done.bank;
    let slots = bank.smoothers;
    lay_slots(words, slots);
    words[96] = bank.count as u64;
    words[97] = bank.rate as u64;
    words[98] = u64::from(bank.ready);
    words[99] = done.count;
    words[100] = done.value;
}

fn told(number: u32, count: usize, value: u64, bank: SmootherBank) -> Done
    ensures { result ≡ record { number = number; count = count; value = value; bank = bank } }
{
    let count = count as u64;
    Done {
        number,
        count,
        value,
        bank,
    }
}

fn set_up(done: Result<SmootherBank, BankRefusal>, old: u64) -> Done
    ensures { result ≡ done_by old (set_up_at done) }
{
    match done {
        Ok(bank) => told(0, 0, old, bank),
        Err(why) => told(u32::from(why), why.index(), old, SmootherBank::unset()),
    }
}

fn refused(why: ParamRefusal, bank: SmootherBank, old: u64) -> Done
    ensures { result ≡ done_by old (record { reply = param_refusal_reply why; bank = bank }) }
{
    match why {
        ParamRefusal::NotSetUp => told(18, 0, old, bank),
        ParamRefusal::NonFiniteValue { param, value } => told(
            23,
            param as usize,
            to_bits(value),
            bank,
        ),
        ParamRefusal::UnknownParam => told(24, 0, old, bank),
    }
}

fn param_set(done: Result<(), ParamRefusal>, bank: SmootherBank, old: u64) -> Done
    ensures { result ≡ done_by old (param_set_at done bank) }
{
    match done {
        Ok(()) => told(0, 0, old, bank),
        Err(why) => refused(why, bank, old),
    }
}

fn value_read(answer: Result<f64, ParamRefusal>, bank: SmootherBank, old: u64) -> Done
    ensures { result ≡ done_by old (read_by answer bank) }
{
    match answer {
        Ok(value) => told(0, 0, to_bits(value), bank),
        Err(why) => refused(why, bank, old),
    }
}

// The call by its number, as C tells it: 0 `set_target`, 1 `set_immediate`, 2 `step`, 3 `reset`, else `value`.
fn called(op: u32, bank: SmootherBank, id: u32, value: f64, old: u64) -> Done
    ensures { result ≡ done_by old (called_by op bank id value) }
{
    let mut bank = bank;
    let done = match op {
        0 => bank.set_target(id, value),
        1 => bank.set_immediate(id, value),
        2 => bank.step().map_err(ParamRefusal::from),
        3 => bank.reset().map_err(ParamRefusal::from),
        _ => return value_read(bank.value(id), bank, old),
    };
    param_set(done, bank, old)
}

// A setup for the first `count` of the declarations that the slots hold.
#[unsafe(no_mangle)]
pub extern "C" fn probe_bank_setup(count: usize, rate: u32, words: &mut [u64; 101]) -> u32
    ensures { held_at result words.new ≡ set_up_by words.old count rate }
{
    let infos = infos_in(words);
    let done = set_up(SmootherBank::try_new(infos, count, rate), words[100]);
    lay(words, done);
    done.number
}

// A call of the bank that the words hold.
#[unsafe(no_mangle)]
pub extern "C" fn probe_bank_call(op: u32, id: u32, value: f64, words: &mut [u64; 101]) -> u32
    ensures { held_at result words.new ≡ call_by words.old op id value }
{
    let done = called(op, bank_in(words), id, value, words[100]);
    lay(words, done);
    done.number
}
