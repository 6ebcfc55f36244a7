// The limiter's, each by the function of its name in crate `host`, under the same clauses.
ghost use Rattle.std.specs.Prelude.{◌≡◌, cond, List, ◌%◌, Float};
ghost use Rattle.arithmetic.specs.Number.{bits};
ghost use Rattle.settings.specs.Settings.{settings_of, process_spec};
ghost use Rattle.settings.specs.Derived.{look_of};
ghost use Rattle.settings.specs.House.{house_fits};
ghost use Rattle.limiter.specs.Stores.{Stores, stores_at};
ghost use Rattle.turns.specs.Machine.{Machine};
ghost use Rattle.driver.specs.Calls.{reset_of, gain_step};
ghost use Rattle.host.specs.Host.{returned_at, called_by, returned_with, process_by, flush_by, parameter_by, read_at, value_by, cap_of, asked_of, setup_by, whole_needed};

use audio::format::Format;

// The look of a lookahead, in bits, at a rate.
#[unsafe(no_mangle)]
pub extern "C" fn daggeryuzu_look(lookahead_ms: u64, rate: u32) -> u64
    ensures { result ≡ look_of (bits lookahead_ms) rate }
{
    host::calls::daggeryuzu_look(lookahead_ms, rate)
}

// The bytes that a cap is held against: the limiter's stores and the bank.
#[unsafe(no_mangle)]
pub extern "C" fn daggeryuzu_bytes_needed(channels: usize, look: usize) -> u64
    ensures { result ≡ whole_needed channels look }
{
    host::calls::daggeryuzu_bytes_needed(channels, look)
}

// Whether there are house weights of a rate and look: 1 or 0.
#[unsafe(no_mangle)]
pub extern "C" fn daggeryuzu_has_house_weights(rate: u32, look: usize) -> u32
    ensures { result ≡ cond (house_fits rate look) 1 0 }
{
    host::calls::daggeryuzu_has_house_weights(rate, look)
}

// Sets a parameter's value and target at once: the value as its bits.
#[unsafe(no_mangle)]
pub extern "C" fn daggeryuzu_set_parameter(
    state: &mut [u8],
    answer: &mut [u64],
    id: u32,
    value: u64,
) -> u32
    ensures { (stores : Stores) → returned_at result answer.new state.new stores
        ≡ called_by (parameter_by id value) answer.old state.old stores }
{
    host::calls::daggeryuzu_set_parameter(state, answer, id, value)
}

// The present value of a parameter, as its bits.
#[unsafe(no_mangle)]
pub extern "C" fn daggeryuzu_parameter(state: &[u8], answer: &mut [u64], id: u32) -> u32
    ensures { read_at result answer.new ≡ value_by id answer.old state.now }
{
    host::calls::daggeryuzu_parameter(state, answer, id)
}

// Restores the starting values.
#[unsafe(no_mangle)]
pub extern "C" fn daggeryuzu_reset(
    state: &mut [u8],
    answer: &mut [u64],
    delay: &mut [f64],
    marks: &[u64],
    minima: &[f64],
    weights: &[f64],
    row: &mut [f64],
    detector: &mut [f64],
) -> u32
    ensures { returned_at result answer.new state.new (stores_at delay.new marks.now minima.now weights.now row.new detector.new)
        ≡ called_by reset_of answer.old state.old (stores_at delay.old marks.now minima.now weights.now row.old detector.old) }
{
    host::calls::daggeryuzu_reset(state, answer, delay, marks, minima, weights, row, detector)
}

// One gain step, of a required gain as its bits: floor, entries dropped and kept, tally, mean and gain.
#[unsafe(no_mangle)]
pub extern "C" fn daggeryuzu_gain_step(
    state: &mut [u8],
    answer: &mut [u64],
    gain: u64,
    marks: &mut [u64],
    minima: &mut [f64],
    weights: &[f64],
    row: &mut [f64],
) -> u32
    ensures { (delay detector : List Float)
        → returned_at result answer.new state.new (stores_at delay marks.new minima.new weights.now row.new detector)
        ≡ called_by (λ (m : Machine). gain_step m (bits gain)) answer.old state.old
        (stores_at delay marks.old minima.old weights.now row.old detector) }
{
    host::calls::daggeryuzu_gain_step(state, answer, gain, marks, minima, weights, row)
}

// A block of f64 samples, eight bytes each. The C interface names each sample type's function, and lists its parameters.
#[unsafe(no_mangle)]
pub extern "C" fn daggeryuzu_process(
    state: &mut [u8],
    answer: &mut [u64],
    position: u64,
    frames: usize,
    events: &[u64],
    audio: &mut [u8],
    delay: &mut [f64],
    marks: &mut [u64],
    minima: &mut [f64],
    weights: &[f64],
    row: &mut [f64],
    detector: &mut [f64],
) -> u32
    ensures { returned_with (returned_at result answer.new state.new (stores_at delay.new marks.new minima.new weights.now row.new detector.new)) audio.new
        ≡ process_by Format.F64 position frames events.now answer.old state.old (stores_at delay.old marks.old minima.old weights.now row.old detector.old) audio.old }
{
    host::calls::daggeryuzu_process(
        state, answer, position, frames, events, audio, delay, marks, minima, weights, row,
        detector,
    )
}

// A block of f32 samples, four bytes each.
#[unsafe(no_mangle)]
pub extern "C" fn daggeryuzu_process_float(
    state: &mut [u8],
    answer: &mut [u64],
    position: u64,
    frames: usize,
    events: &[u64],
    audio: &mut [u8],
    delay: &mut [f64],
    marks: &mut [u64],
    minima: &mut [f64],
    weights: &[f64],
    row: &mut [f64],
    detector: &mut [f64],
) -> u32
    ensures { returned_with (returned_at result answer.new state.new (stores_at delay.new marks.new minima.new weights.now row.new detector.new)) audio.new
        ≡ process_by Format.F32 position frames events.now answer.old state.old (stores_at delay.old marks.old minima.old weights.now row.old detector.old) audio.old }
{
    host::calls::daggeryuzu_process_float(
        state, answer, position, frames, events, audio, delay, marks, minima, weights, row,
        detector,
    )
}

// A drain into f64 samples.
#[unsafe(no_mangle)]
pub extern "C" fn daggeryuzu_flush(
    state: &mut [u8],
    answer: &mut [u64],
    frames: usize,
    audio: &mut [u8],
    delay: &mut [f64],
    marks: &mut [u64],
    minima: &mut [f64],
    weights: &[f64],
    row: &mut [f64],
    detector: &mut [f64],
) -> u32
    ensures { returned_with (returned_at result answer.new state.new (stores_at delay.new marks.new minima.new weights.now row.new detector.new)) audio.new
        ≡ flush_by Format.F64 frames answer.old state.old (stores_at delay.old marks.old minima.old weights.now row.old detector.old) audio.old }
{
    host::calls::daggeryuzu_flush(
        state, answer, frames, audio, delay, marks, minima, weights, row, detector,
    )
}

// A drain into f32 samples.
#[unsafe(no_mangle)]
pub extern "C" fn daggeryuzu_flush_float(
    state: &mut [u8],
    answer: &mut [u64],
    frames: usize,
    audio: &mut [u8],
    delay: &mut [f64],
    marks: &mut [u64],
    minima: &mut [f64],
    weights: &[f64],
    row: &mut [f64],
    detector: &mut [f64],
) -> u32
    ensures { returned_with (returned_at result answer.new state.new (stores_at delay.new marks.new minima.new weights.now row.new detector.new)) audio.new
        ≡ flush_by Format.F32 frames answer.old state.old (stores_at delay.old marks.old minima.old weights.now row.old detector.old) audio.old }
{
    host::calls::daggeryuzu_flush_float(
        state, answer, frames, audio, delay, marks, minima, weights, row, detector,
    )
}

// Sets a limiter up on lent stores; the settings' floats as their bits. Bit c of `left_out` leaves channel c out of the
// linked peak; bits past the eighth are not read. A `house` other than 0 asks for a house table.
#[unsafe(no_mangle)]
pub extern "C" fn daggeryuzu_setup(
    state: &mut [u8],
    answer: &mut [u64],
    threshold_db: u64,
    true_peak_margin_db: u64,
    lookahead_ms: u64,
    release_ms: u64,
    left_out: u32,
    rate: u32,
    channels: usize,
    max_block: usize,
    capped: u32,
    cap: u64,
    house: u32,
    delay: &mut [f64],
    marks: &mut [u64],
    minima: &mut [f64],
    weights: &mut [f64],
    row: &mut [f64],
    detector: &mut [f64],
) -> u32
    ensures { returned_at result answer.new state.new (stores_at delay.new marks.new minima.new weights.new row.new detector.new)
        ≡ setup_by (settings_of (bits threshold_db) (bits true_peak_margin_db) (bits lookahead_ms) (bits release_ms) (left_out % 256))
        (process_spec rate channels max_block (cap_of capped cap) (asked_of house))
        answer.old state.old (stores_at delay.old marks.old minima.old weights.old row.old detector.old) }
{
    host::calls::daggeryuzu_setup(
        state,
        answer,
        threshold_db,
        true_peak_margin_db,
        lookahead_ms,
        release_ms,
        left_out,
        rate,
        channels,
        max_block,
        capped,
        cap,
        house,
        delay,
        marks,
        minima,
        weights,
        row,
        detector,
    )
}
