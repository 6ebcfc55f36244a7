// A state into its buffer: its words part by part, each from its place on. The buffer is lent to be written, so that it has
// 512 bytes is a clause, and no fact of a type.
ghost use Rattle.std.specs.Prelude.{◌≡◌, ◌+◌, ◌*◌, ◌≤◌, length};
ghost use Rattle.audio.specs.Bytes.{bytes_out};
ghost use Rattle.audio.specs.Inner.{put};
ghost use Rattle.bank.specs.declared.smoother_bank.SmootherBank.{SmootherBank};
ghost use Rattle.driver.specs.Parts.{shown_of};
ghost use Rattle.state_bytes.specs.State.{state_bytes, limiter_out, state_out};

use arithmetic::pattern::to_bits;
use audio::words::write_words;
use bank::words::smoother_out;
use driver::ready::shown;
use driver::state::{KernelProcessor, Threshold};
use limiter::state::Limiter;

fn limiter_out(l: Limiter) -> [u64; 18]
    ensures { result ≡ limiter_out l }
{
    [
        to_bits(l.settings.threshold_db),
        to_bits(l.settings.true_peak_margin_db),
        to_bits(l.settings.lookahead_ms),
        to_bits(l.settings.release_ms),
        l.rate as u64,
        l.channels as u64,
        l.max_block as u64,
        to_bits(l.release_coeff),
        l.env.keeper.look as u64,
        l.env.keeper.head as u64,
        l.env.keeper.len as u64,
        l.env.keeper.frame,
        l.env.attack.pos as u64,
        l.env.attack.tally as u64,
        to_bits(l.env.gain),
        l.delay_pos as u64,
        to_bits(l.target),
        l.drained as u64,
    ]
}

// These words, from word k on.
fn put_words(state: &mut [u8], k: usize, words: &[u64])
    requires { 8 * (k + length words.now) ≤ length state.old }
    ensures { state.new ≡ put state.old (8 * k) (bytes_out 8 words.now) }
{
    let at = 8 * k;
    let end = at + 8 * words.len();
    write_words(&mut state[at..end], words);
}

// The state of a limiter and of any bank that shows this.
pub fn write_parts(state: &mut [u8], limiter: Limiter, t: Threshold)
    requires { length state.old ≡ state_bytes }
    ensures { (b : SmootherBank) → shown_of b ≡ t → state.new ≡ state_out (record { limiter = limiter; bank = b }) }
{
    let smoother = t.smoother;
    put_words(state, 0, &[0x1_7a75_7944]);
    put_words(state, 1, &limiter_out(limiter));
    put_words(state, 19, &smoother_out(smoother));
    let settings = limiter.settings;
    put_words(
        state,
        31,
        &[
            t.count as u64,
            t.rate as u64,
            u64::from(t.ready),
            settings.left_out as u64,
        ],
    );
    put_words(state, 35, &[0u64; 29]);
}

pub fn write_state(state: &mut [u8], p: KernelProcessor)
    requires { length state.old ≡ state_bytes }
    ensures { state.new ≡ state_out p }
{
    let limiter = p.limiter;
    let bank = p.bank;
    write_parts(state, limiter, shown(bank));
}
