// What a buffer holds: its words, judged, then taken apart. Each word is read where it stands.
ghost use Rattle.std.specs.Prelude.{◌≡◌, ◌<◌, length, get_or, is_some, IfSome};
ghost use Rattle.audio.specs.Bytes.{words_in};
ghost use Rattle.bank.specs.Words.{float_in, half_in, smoother_in};
ghost use Rattle.driver.specs.Parts.{shown_of};
ghost use Rattle.state_bytes.specs.State.{state_words, state_bytes, zeros_at, holds_state, is_state, settings_in, envelope_in, limiter_in, bank_in, processor_in};

use crate::block::bank_with;
use arithmetic::pattern::from_bits;
use audio::words::word;
use bank::smoother::Smoother;
use bank::words::smoother_in;
use driver::state::{KernelProcessor, Threshold};
use envelope::env::Envelope;
use envelope::row::AttackRow;
use keeper::FloorKeeper;
use limiter::state::Limiter;
use settings::LimiterSettings;

// A buffer that has a state's length: its words are read where they stand.
#[derive(Clone, Copy)]
pub struct State<'a> {
    bytes: &'a [u8],
    ghost long: { length bytes.now ≡ state_bytes },
}

impl<'a> State<'a> {
    // The state that a buffer holds.
    pub fn of(bytes: &'a [u8]) -> Option<State<'a>>
        ensures held { is_some result ≡ is_state bytes.now }
        ensures same { IfSome result (λ s. s.bytes.now ≡ bytes.now) }
    {
        if bytes.len() != 512 {
            return None;
        }
        let state = State { bytes };
        if state.is_held() { Some(state) } else { None }
    }

    // The word at a place.
    fn word(&self, k: usize) -> u64
        requires { k < state_words }
        ensures { result ≡ get_or (words_in 8 state_words self.now.bytes.now) k 0 }
    {
        word(self.bytes, 8 * k)
    }

    // The float at a place.
    fn float(&self, k: usize) -> f64
        requires { k < state_words }
        ensures { result ≡ float_in (words_in 8 state_words self.now.bytes.now) k }
    {
        from_bits(self.word(k))
    }

    // The number of 32 bits at a place.
    fn half(&self, k: usize) -> u32
        requires { k < state_words }
        ensures { result ≡ half_in (words_in 8 state_words self.now.bytes.now) k }
    {
        (self.word(k) % 4294967296) as u32
    }

    fn settings(&self) -> LimiterSettings
        ensures { result ≡ settings_in (words_in 8 state_words self.now.bytes.now) }
    {
        LimiterSettings {
            threshold_db: self.float(1),
            true_peak_margin_db: self.float(2),
            lookahead_ms: self.float(3),
            release_ms: self.float(4),
            left_out: (self.word(34) % 256) as u8,
        }
    }

    fn envelope(&self) -> Envelope
        ensures { result ≡ envelope_in (words_in 8 state_words self.now.bytes.now) }
    {
        Envelope {
            keeper: FloorKeeper {
                look: self.word(9) as usize,
                head: self.word(10) as usize,
                len: self.word(11) as usize,
                frame: self.word(12),
            },
            attack: AttackRow {
                pos: self.word(13) as usize,
                tally: self.word(14) as usize,
            },
            gain: self.float(15),
        }
    }

    pub fn limiter(&self) -> Limiter
        ensures { result ≡ limiter_in (words_in 8 state_words self.now.bytes.now) }
    {
        Limiter {
            settings: self.settings(),
            rate: self.half(5),
            channels: self.word(6) as usize,
            max_block: self.word(7) as usize,
            release_coeff: self.float(8),
            env: self.envelope(),
            delay_pos: self.word(16) as usize,
            target: self.float(17),
            drained: self.word(18) as usize,
        }
    }

    // The threshold's smoother, of its twelve words.
    fn smoother(&self) -> Smoother
        ensures { result ≡ smoother_in (words_in 8 state_words self.now.bytes.now) 19 }
    {
        let words = [
            self.word(19),
            self.word(20),
            self.word(21),
            self.word(22),
            self.word(23),
            self.word(24),
            self.word(25),
            self.word(26),
            self.word(27),
            self.word(28),
            self.word(29),
            self.word(30),
        ];
        smoother_in(&words, 0)
    }

    // What is kept of the bank.
    pub fn threshold(&self) -> Threshold
        ensures { result ≡ shown_of (bank_in (words_in 8 state_words self.now.bytes.now)) }
    {
        Threshold {
            smoother: self.smoother(),
            count: self.word(31) as usize,
            rate: self.half(32),
            ready: self.word(33) != 0,
        }
    }

    // Nothing in the room to grow: every byte is read, without a way out, several in one instruction.
    fn rest_is_zero(&self) -> bool
        ensures { result ≡ zeros_at (words_in 8 state_words self.now.bytes.now) 35 29 }
    {
        let mut ok = true;
        for byte in &self.bytes[280..] {
            ok = ok & (*byte == 0);
        }
        ok
    }

    fn is_held(&self) -> bool
        ensures { result ≡ holds_state (words_in 8 state_words self.now.bytes.now) }
    {
        let rest = self.rest_is_zero();
        let layout = self.word(0) == 0x1_7a75_7944;
        let rate = self.word(5) < 4294967296;
        let id = self.word(19) < 4294967296;
        let bank = self.word(32) < 4294967296;
        let shape = self.word(28) <= 2;
        let ready = self.word(33) <= 1;
        let choice = self.word(34) < 256;
        layout & (rate & (id & (bank & (shape & (ready & (choice & rest))))))
    }
}

// A buffer that is no state holds the limiter that was never set up.
pub fn read_state(bytes: &[u8]) -> KernelProcessor
    ensures { result ≡ processor_in bytes.now }
{
    let Some(state) = State::of(bytes) else {
        return KernelProcessor::not_set_up();
    };
    KernelProcessor {
        limiter: state.limiter(),
        bank: bank_with(state.threshold()),
    }
}
