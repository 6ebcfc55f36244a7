// The calls of a recorded session. Every one is made whatever the file says, since no call of the limiter
// asks for anything; damage is told by the answers.
ghost use Rattle.std.specs.Prelude.{◌≡◌, ◌≤◌, length};

use crate::head::{Head, count, places};
use crate::{answers, samples};
use arithmetic::pattern::from_bits;
use audio::format::sample_bytes;
use driver::state::KernelProcessor;
use frame::stores::Lent;
use records::rooms::room;
use records::words::{array, fill, half, next};
use std::io;

// The stores of a session, at its lengths: `Lent`, but for the weights, which a setup may write.
#[derive(Drop)]
pub struct Stores<'a> {
    pub delay: &'a mut [f64],
    pub marks: &'a mut [u64],
    pub minima: &'a mut [f64],
    pub weights: &'a mut [f64],
    pub row: &'a mut [f64],
    pub detector: &'a mut [f64],
}

impl Stores<'_> {
    // As a block or a drain takes them.
    fn lent(&mut self) -> Lent<'_> {
        let Stores {
            delay,
            marks,
            minima,
            weights,
            row,
            detector,
        } = self;
        Lent {
            delay,
            marks,
            minima,
            weights,
            row,
            detector,
        }
    }
}

// A session under way: its head, the limiter with its stores, and the state of the samples' source.
// Each call says whether the limiter told what was recorded.
#[derive(Drop)]
pub struct Session<'a> {
    head: Head,
    processor: KernelProcessor,
    stores: Stores<'a>,
    x: u64,
}

impl<'a> Session<'a> {
    pub fn new(head: Head, stores: Stores<'a>) -> Session<'a> {
        Session {
            head,
            processor: KernelProcessor::not_set_up(),
            stores,
            x: head.seed,
        }
    }

    // Whether the weights are these; a NaN is the same as nothing.
    pub fn holds(&self, weights: &[f64]) -> bool {
        weights == &self.stores.weights[..]
    }

    // The bytes of so many frames.
    fn bytes_of(&self, frames: usize) -> usize
        ensures { result ≤ 32768 }
    {
        sample_bytes(self.head.format) * places(self.head.spec.channels, frames, 512)
    }

    // A block, on bytes that it fills.
    pub fn block<R: io::Read>(&mut self, file: &mut R) -> io::Result<bool> {
        let position = next(file)?;
        let frames = next(file)? as usize;
        let told = 3 * count(file, 64)? as usize;
        let mut events = room::<u64, 192>(0);
        fill(file, &mut events[..told])?;
        let mut audio = audio_room();
        let audio = &mut audio[..self.bytes_of(frames)];
        let format = self.head.format;
        self.x = samples::fill(audio, format, self.x, self.head.kind);
        let done = self.processor.process(
            format,
            position,
            frames,
            &events[..told],
            audio,
            &mut self.stores.lent(),
        );
        let digest = samples::digest(audio, format, frames, frames);
        answers::block_same(file, done, digest)
    }

    pub fn drain<R: io::Read>(&mut self, file: &mut R) -> io::Result<bool> {
        let frames = next(file)? as usize;
        let mut audio = audio_room();
        let audio = &mut audio[..self.bytes_of(frames)];
        let format = self.head.format;
        let done = self
            .processor
            .flush(format, frames, audio, &mut self.stores.lent());
        let written = done.map_or(0, |f| f.written);
        let digest = samples::digest(audio, format, frames, written);
        answers::drained_same(file, done, digest)
    }

    pub fn reset(&mut self) -> bool {
        let Lent {
            delay,
            marks,
            minima,
            weights,
            row,
            detector,
        } = self.stores.lent();
        self.processor
            .reset(delay, marks, minima, weights, row, detector)
            .is_ok()
    }

    pub fn set<R: io::Read>(&mut self, file: &mut R) -> io::Result<bool> {
        let [id, value, due] = array::<_, 3>(file)?;
        let done = self
            .processor
            .set_parameter_immediate(half(id), from_bits(value));
        Ok(done.map_or_else(u32::from, |()| 0) as u64 == due)
    }

    pub fn read<R: io::Read>(&self, file: &mut R) -> io::Result<bool> {
        let [id, due, bits] = array::<_, 3>(file)?;
        Ok(answers::value_same(self.processor.value(half(id)), due, bits))
    }

    pub fn gain_step<R: io::Read>(&mut self, file: &mut R) -> io::Result<bool> {
        let gain = from_bits(next(file)?);
        let due = array::<_, 6>(file)?;
        let Lent {
            delay: _,
            marks,
            minima,
            weights,
            row,
            detector: _,
        } = self.stores.lent();
        let done = self.processor.step_env(gain, marks, minima, weights, row);
        Ok(done.is_ok_and(|told| answers::step_same(told, due)))
    }

    // A setup leaves a limiter that is not set up where it is refused. The look that it derives is the recorded one.
    pub fn setup(&mut self) -> bool {
        let s = &mut self.stores;
        let done = KernelProcessor::prepare(
            self.head.settings,
            self.head.spec,
            s.delay,
            s.marks,
            s.minima,
            s.weights,
            s.row,
            s.detector,
        );
        self.processor = done.unwrap_or(KernelProcessor::not_set_up());
        let look = self.head.look;
        done.is_ok_and(|p| p.limiter.env.keeper.look == look)
    }
}

// Room for a call's audio. Eight bytes of 64 are a number over 32, and four of them one over 3, which no output is, so a place
// that is left out is told.
fn audio_room() -> [u8; 32768]
    ensures { length result ≡ 32768 }
{
    room(64)
}
