// The C functions. Each that can refuse answers document 01's number, 0 where the work is finished.
ghost use Rattle.std.specs.Prelude.{◌≡◌, cond, List, [], ◌∷◌, ℕ, ◌%◌, eqb, Float, length};
ghost use Rattle.arithmetic.specs.Number.{bits};
ghost use Rattle.arithmetic.specs.Reply.{refused, count};
ghost use Rattle.settings.specs.Settings.{settings_of, process_spec};
ghost use Rattle.settings.specs.Derived.{look_of};
ghost use Rattle.settings.specs.House.{house_fits};
ghost use Rattle.frame.specs.Lent.{Stays};
ghost use Rattle.limiter.specs.Stores.{Stores, stores_at, stores_in};
ghost use Rattle.turns.specs.Machine.{Machine};
ghost use Rattle.turns.specs.Block.{placed};
ghost use Rattle.bank.specs.declared.smoother_bank.SmootherBank.{SmootherBank};
ghost use Rattle.bank.specs.Answers.{param_set_reply};
ghost use Rattle.driver.specs.Answers.{setup_reply, refused_by};
ghost use Rattle.driver.specs.Parts.{shown_of};
ghost use Rattle.driver.specs.Calls.{reset_of, gain_step};
ghost use Rattle.state_bytes.specs.State.{state_bytes, state_out};
ghost use Rattle.host.specs.Answer.{reply_words, words_of, answered, answered_by};
ghost use Rattle.host.specs.Host.{returned_at, called_by, returned_with, process_by, flush_by, given_back, parameter_by, read_at, value_by, cap_of, asked_of, setup_by, whole_needed};

use crate::answer::{ReplyWords, of_place, pair, write_answer};
use arithmetic::pattern::from_bits;
use audio::format::{Format, size_of};
use bank::smoother_bank::ParamRefusal;
use driver::answers::{Refusal, SetupRefusal};
use driver::process::judge_lent;
use driver::state::KernelProcessor;
use frame::stores::Lent;
use settings::{LimiterSettings, ProcessSpec};
use state_bytes::block::{RenderedBlock, render_block};
use state_bytes::read::{State, read_state};
use state_bytes::write::{write_parts, write_state};

// The look of a lookahead, in bits, at a rate.
pub fn daggeryuzu_look(lookahead_ms: u64, rate: u32) -> u64
    ensures { result ≡ look_of (bits lookahead_ms) rate }
{
    settings::derived::look(from_bits(lookahead_ms), rate)
}

// The bytes that a cap is held against: the limiter's stores and the bank. C takes a number, the largest where none is counted.
pub fn daggeryuzu_bytes_needed(channels: usize, look: usize) -> u64
    ensures { result ≡ whole_needed channels look }
{
    let n = settings::memory::bytes_needed(channels, look);
    if n <= 18446744073709551535 {
        n + 80
    } else {
        18446744073709551615
    }
}

// Whether there are house weights of a rate and look: 1 or 0.
pub fn daggeryuzu_has_house_weights(rate: u32, look: usize) -> u32
    ensures { result ≡ cond (house_fits rate look) 1 0 }
{
    if settings::house::fits(rate, look) {
        1
    } else {
        0
    }
}

// A call's words, and the state where the work is finished. It goes by the number: 23 has had its own word put back by then.
fn leave(state: &mut [u8], buffer: &mut [u64], t: ReplyWords, p: KernelProcessor) -> u32
    requires { t.number ≡ 0 → length state.old ≡ state_bytes }
    ensures value { result ≡ t.number }
    ensures buffer_after { buffer.new ≡ answered buffer.old (words_of t) }
    ensures state_after { state.new ≡ cond (eqb t.number 0) (state_out p) state.old }
{
    write_answer(buffer, t);
    if t.number != 0 {
        return t.number;
    }
    write_state(state, p);
    0
}

// A refused call's words; nothing else is written.
fn refuse(buffer: &mut [u64], why: Refusal) -> u32
    ensures value { result ≡ (refused_by why).number }
    ensures buffer_after { buffer.new ≡ answered_by buffer.old (refused_by why) }
{
    let t = ReplyWords::from(why);
    write_answer(buffer, t);
    t.number
}

// A finished block's words, and the state that it leaves.
fn finish(state: &mut [u8], buffer: &mut [u64], done: RenderedBlock) -> u32
    requires { length state.old ≡ state_bytes }
    ensures value { result ≡ 0 }
    ensures buffer_after { buffer.new ≡ answered_by buffer.old (placed done.frame done.seat) }
    ensures state_after { (b : SmootherBank) → shown_of b ≡ done.threshold → state.new ≡ state_out (record { limiter = done.limiter; bank = b }) }
{
    let limiter = done.limiter;
    let t = done.threshold;
    let seat = done.seat;
    write_answer(buffer, of_place(done.frame, seat));
    write_parts(state, limiter, t);
    0
}

// A parameter call's words: 23 gives back the value's own bits.
fn with_word(told: Result<(), ParamRefusal>, id: u32, word: u64) -> ReplyWords
    ensures { result ≡ reply_words (given_back id word (param_set_reply told)) }
{
    match told {
        Ok(()) => ReplyWords::from(()),
        Err(ParamRefusal::NonFiniteValue { .. }) => pair(23, id as u64, word),
        Err(why) => why.into(),
    }
}

// Sets a parameter's value and target at once: the value as its bits.
pub fn daggeryuzu_set_parameter(state: &mut [u8], answer: &mut [u64], id: u32, value: u64) -> u32
    ensures { (stores : Stores) → returned_at result answer.new state.new stores
        ≡ called_by (parameter_by id value) answer.old state.old stores }
{
    let mut p = read_state(state);
    let told = p.set_parameter_immediate(id, from_bits(value));
    leave(state, answer, with_word(told, id, value), p)
}

// The present value of a parameter, as its bits.
pub fn daggeryuzu_parameter(state: &[u8], answer: &mut [u64], id: u32) -> u32
    ensures { read_at result answer.new ≡ value_by id answer.old state.now }
{
    let p = read_state(state);
    let t = ReplyWords::from(p.value(id));
    write_answer(answer, t);
    t.number
}

// Restores the starting values.
pub fn daggeryuzu_reset(
    state: &mut [u8],
    answer: &mut [u64],
    delay: &mut [f64],
    marks: &[u64],
    minima: &[f64],
    weights: &[f64],
    row: &mut [f64],
    detector: &mut [f64],
) -> u32
    ensures { returned_at result answer.new state.new (stores_at delay.new marks.now minima.now weights.now row.new detector.new)
        ≡ called_by reset_of answer.old state.old (stores_at delay.old marks.now minima.now weights.now row.old detector.old) }
{
    let mut p = read_state(state);
    let told = p.reset(delay, marks, minima, weights, row, detector);
    leave(state, answer, told.into(), p)
}

// One gain step, of a required gain as its bits: floor, entries dropped and kept, tally, mean and gain.
pub fn daggeryuzu_gain_step(
    state: &mut [u8],
    answer: &mut [u64],
    gain: u64,
    marks: &mut [u64],
    minima: &mut [f64],
    weights: &[f64],
    row: &mut [f64],
) -> u32
    ensures { (delay detector : List Float)
        → returned_at result answer.new state.new (stores_at delay marks.new minima.new weights.now row.new detector)
        ≡ called_by (λ (m : Machine). gain_step m (bits gain)) answer.old state.old
        (stores_at delay marks.old minima.old weights.now row.old detector) }
{
    let mut p = read_state(state);
    let told = p.step_env(from_bits(gain), marks, minima, weights, row);
    leave(state, answer, told.into(), p)
}

// A block of so many frames a channel, planar, that starts at an absolute position: three words an
// event. The C interface has a function of its own for each sample type; both come here.
fn process_as(
    format: Format,
    state: &mut [u8],
    answer: &mut [u64],
    position: u64,
    frames: usize,
    events: &[u64],
    audio: &mut [u8],
    lent: &mut Lent,
) -> u32
    ensures stays { Stays lent.old lent.new }
    ensures left { returned_with (returned_at result answer.new state.new (stores_in lent.new)) audio.new
        ≡ process_by format position frames events.now answer.old state.old (stores_in lent.old) audio.old }
{
    let Some(held) = State::of(state) else {
        return refuse(answer, Refusal::NotSetUp);
    };
    let l = held.limiter();
    let t = held.threshold();
    let size = size_of(format, audio);
    if let Err(why) = judge_lent(l, t, position, frames, events, size, lent) {
        return refuse(answer, why);
    }
    // who lends no word is not told the place: no sum is then computed for its sake
    let asked = answer.len() != 0;
    let done = render_block(l, t, format, position, frames, events, audio, lent, asked);
    finish(state, answer, done)
}

// A block of f64 samples, eight bytes each.
pub fn daggeryuzu_process(
    state: &mut [u8],
    answer: &mut [u64],
    position: u64,
    frames: usize,
    events: &[u64],
    audio: &mut [u8],
    delay: &mut [f64],
    marks: &mut [u64],
    minima: &mut [f64],
    weights: &[f64],
    row: &mut [f64],
    detector: &mut [f64],
) -> u32
    ensures { returned_with (returned_at result answer.new state.new (stores_at delay.new marks.new minima.new weights.now row.new detector.new)) audio.new
        ≡ process_by Format.F64 position frames events.now answer.old state.old (stores_at delay.old marks.old minima.old weights.now row.old detector.old) audio.old }
{
    let mut lent = Lent {
        delay,
        marks,
        minima,
        weights,
        row,
        detector,
    };
    process_as(
        Format::F64,
        state,
        answer,
        position,
        frames,
        events,
        audio,
        &mut lent,
    )
}

// A block of f32 samples, four bytes each.
pub fn daggeryuzu_process_float(
    state: &mut [u8],
    answer: &mut [u64],
    position: u64,
    frames: usize,
    events: &[u64],
    audio: &mut [u8],
    delay: &mut [f64],
    marks: &mut [u64],
    minima: &mut [f64],
    weights: &[f64],
    row: &mut [f64],
    detector: &mut [f64],
) -> u32
    ensures { returned_with (returned_at result answer.new state.new (stores_at delay.new marks.new minima.new weights.now row.new detector.new)) audio.new
        ≡ process_by Format.F32 position frames events.now answer.old state.old (stores_at delay.old marks.old minima.old weights.now row.old detector.old) audio.old }
{
    let mut lent = Lent {
        delay,
        marks,
        minima,
        weights,
        row,
        detector,
    };
    process_as(
        Format::F32,
        state,
        answer,
        position,
        frames,
        events,
        audio,
        &mut lent,
    )
}

// A drain of so many frames a channel, planar: how many it wrote, and whether the tail is done. The C interface has
// a function of its own for each sample type; both come here.
fn flush_as(
    format: Format,
    state: &mut [u8],
    answer: &mut [u64],
    frames: usize,
    audio: &mut [u8],
    lent: &mut Lent,
) -> u32
    ensures stays { Stays lent.old lent.new }
    ensures left { returned_with (returned_at result answer.new state.new (stores_in lent.new)) audio.new
        ≡ flush_by format frames answer.old state.old (stores_in lent.old) audio.old }
{
    let mut p = read_state(state);
    let told = p.flush(format, frames, audio, lent);
    leave(state, answer, told.into(), p)
}

// A drain into f64 samples.
pub fn daggeryuzu_flush(
    state: &mut [u8],
    answer: &mut [u64],
    frames: usize,
    audio: &mut [u8],
    delay: &mut [f64],
    marks: &mut [u64],
    minima: &mut [f64],
    weights: &[f64],
    row: &mut [f64],
    detector: &mut [f64],
) -> u32
    ensures { returned_with (returned_at result answer.new state.new (stores_at delay.new marks.new minima.new weights.now row.new detector.new)) audio.new
        ≡ flush_by Format.F64 frames answer.old state.old (stores_at delay.old marks.old minima.old weights.now row.old detector.old) audio.old }
{
    let mut lent = Lent {
        delay,
        marks,
        minima,
        weights,
        row,
        detector,
    };
    flush_as(Format::F64, state, answer, frames, audio, &mut lent)
}

// A drain into f32 samples.
pub fn daggeryuzu_flush_float(
    state: &mut [u8],
    answer: &mut [u64],
    frames: usize,
    audio: &mut [u8],
    delay: &mut [f64],
    marks: &mut [u64],
    minima: &mut [f64],
    weights: &[f64],
    row: &mut [f64],
    detector: &mut [f64],
) -> u32
    ensures { returned_with (returned_at result answer.new state.new (stores_at delay.new marks.new minima.new weights.now row.new detector.new)) audio.new
        ≡ flush_by Format.F32 frames answer.old state.old (stores_at delay.old marks.old minima.old weights.now row.old detector.old) audio.old }
{
    let mut lent = Lent {
        delay,
        marks,
        minima,
        weights,
        row,
        detector,
    };
    flush_as(Format::F32, state, answer, frames, audio, &mut lent)
}

// The C interface has a flag with the cap beside it.
fn cap_of(capped: u32, cap: u64) -> Option<u64>
    ensures { result ≡ cap_of capped cap }
{
    (capped != 0).then_some(cap)
}

// How many weights setup is to see: none where the state does not fit its buffer.
fn lent(fits: bool, weights: usize) -> usize
    ensures { result ≡ cond fits weights 0 }
{
    if fits { weights } else { 0 }
}

fn of_setup(told: Result<KernelProcessor, SetupRefusal>) -> ReplyWords
    ensures { result ≡ reply_words (setup_reply told) }
{
    match told {
        Ok(_) => ReplyWords::from(()),
        Err(why) => why.into(),
    }
}

// The state into its buffer, where it fits.
fn keep(state: &mut [u8], p: KernelProcessor)
    ensures { state.new ≡ cond (eqb (length state.old) state_bytes) (state_out p) state.old }
{
    if state.len() == 512 {
        write_state(state, p);
    }
}

// Sets a limiter up on lent stores; the settings' floats as their bits. Bit c of `left_out` leaves channel c out of the
// linked peak; bits past the eighth are not read. A `house` other than 0 asks for a house table.
pub fn daggeryuzu_setup(
    state: &mut [u8],
    answer: &mut [u64],
    threshold_db: u64,
    true_peak_margin_db: u64,
    lookahead_ms: u64,
    release_ms: u64,
    left_out: u32,
    rate: u32,
    channels: usize,
    max_block: usize,
    capped: u32,
    cap: u64,
    house: u32,
    delay: &mut [f64],
    marks: &mut [u64],
    minima: &mut [f64],
    weights: &mut [f64],
    row: &mut [f64],
    detector: &mut [f64],
) -> u32
    ensures { returned_at result answer.new state.new (stores_at delay.new marks.new minima.new weights.new row.new detector.new)
        ≡ setup_by (settings_of (bits threshold_db) (bits true_peak_margin_db) (bits lookahead_ms) (bits release_ms) (left_out % 256))
        (process_spec rate channels max_block (cap_of capped cap) (asked_of house))
        answer.old state.old (stores_at delay.old marks.old minima.old weights.old row.old detector.old) }
{
    let s = LimiterSettings {
        threshold_db: from_bits(threshold_db),
        true_peak_margin_db: from_bits(true_peak_margin_db),
        lookahead_ms: from_bits(lookahead_ms),
        release_ms: from_bits(release_ms),
        left_out: (left_out % 256) as u8,
    };
    let spec = ProcessSpec {
        rate,
        channels,
        max_block,
        cap: cap_of(capped, cap),
        house: house != 0,
    };
    let n = lent(state.len() == 512, weights.len());
    let told = KernelProcessor::prepare(
        s,
        spec,
        delay,
        marks,
        minima,
        &mut weights[..n],
        row,
        detector,
    );
    let t = of_setup(told);
    write_answer(answer, t);
    keep(state, told.unwrap_or(KernelProcessor::not_set_up()));
    t.number
}
