// The file `bank`: records that start with their op. Declarations gather until a setup, whose bank
// the calls after it change in turn.
use arithmetic::pattern::{from_bits, to_bits};
use bank::param::{ParamInfo, Smoothing};
use bank::smoother_bank::{NotSetUp, ParamRefusal, SmootherBank};
use records::tally::Tally;
use records::words::{array, half, next};
use std::io;

// What goes from record to record: the declarations since the last setup and how many they are, the
// bank, and how many parameters it was set up for. That last number is kept beside the bank since a
// step's record has as many values even where the bank wrongly has none.
#[derive(Clone, Copy)]
pub struct Held {
    // Eight places and a count beside them, as `SmootherBank::try_new` takes them.
    infos: [ParamInfo; 8],
    declared: usize,
    bank: SmootherBank,
    width: usize,
}

impl Held {
    pub fn new() -> Self {
        let none = ParamInfo {
            id: 0,
            low: 0.0,
            high: 0.0,
            default: 0.0,
            smoothing_ms: 0.0,
            smoothing: Smoothing::Step,
        };
        Held {
            infos: [none; 8],
            declared: 0,
            bank: SmootherBank::unset(),
            width: 0,
        }
    }

    // A declaration has no answer. Of a ninth only the number is kept: it is refused before any is read.
    fn declare<R: io::Read>(&mut self, file: &mut R) -> io::Result<()> {
        let [id, low, high, default, smoothing_ms, smoothing] = array::<_, 6>(file)?;
        if self.declared >= 8 {
            self.declared = 9;
            return Ok(());
        }
        self.infos[self.declared] = ParamInfo {
            id: half(id),
            low: from_bits(low),
            high: from_bits(high),
            default: from_bits(default),
            smoothing_ms: from_bits(smoothing_ms),
            smoothing: Smoothing::from(smoothing),
        };
        self.declared += 1;
        Ok(())
    }

    // A setup, which takes all declarations.
    fn setup<R: io::Read>(&mut self, file: &mut R, tally: &mut Tally) -> io::Result<()> {
        let [rate, number, index] = array::<_, 3>(file)?;
        let done = SmootherBank::try_new(self.infos, self.declared, half(rate));
        let got = match done {
            Ok(_) => (0, 0),
            Err(why) => (u32::from(why) as u64, why.index() as u64),
        };
        tally.count(got == (number, index));
        self.bank = done.unwrap_or(SmootherBank::unset());
        self.width = self.declared;
        self.declared = 0;
        Ok(())
    }

    // A parameter call.
    fn set<R: io::Read, F: FnOnce(&mut SmootherBank, u32, f64) -> Result<(), ParamRefusal>>(
        &mut self,
        file: &mut R,
        tally: &mut Tally,
        call: F,
    ) -> io::Result<()>
        requires { F.IsAlwaysCallable call }
    {
        let [id, value, due] = array::<_, 3>(file)?;
        let done = call(&mut self.bank, half(id), from_bits(value));
        tally.count(done.map_or_else(u32::from, |()| 0) as u64 == due);
        Ok(())
    }

    // A step, or back to the defaults. The recorded values are those of the first `width` parameters; all are
    // read, whether or not an earlier one differs, so that the next record starts where it does.
    fn turn<R: io::Read, F: FnOnce(&mut SmootherBank) -> Result<(), NotSetUp>>(
        &mut self,
        file: &mut R,
        tally: &mut Tally,
        call: F,
    ) -> io::Result<()>
        requires { F.IsAlwaysCallable call }
    {
        let mut same = call(&mut self.bank).is_ok();
        for i in 0..self.width {
            same &= to_bits(self.bank.value_at(i)) == next(file)?;
        }
        tally.count(same);
        Ok(())
    }

    fn value<R: io::Read>(&self, file: &mut R, tally: &mut Tally) -> io::Result<()> {
        let [id, due, word] = array::<_, 3>(file)?;
        let got = match self.bank.value(half(id)) {
            Ok(value) => (0, to_bits(value)),
            Err(why) => (u32::from(why) as u64, 0),
        };
        tally.count(got == (due, word));
        Ok(())
    }

    // The rest of a record whose op was read. Another op is no record's, and differs.
    // By the file's numbers: each is named in this match alone, and an enum would list them twice.
    pub fn record<R: io::Read>(
        &mut self,
        file: &mut R,
        op: u64,
        tally: &mut Tally,
    ) -> io::Result<()> {
        match op {
            1 => self.declare(file),
            2 => self.setup(file, tally),
            3 => self.set(file, tally, SmootherBank::set_target),
            4 => self.set(file, tally, SmootherBank::set_immediate),
            5 => self.turn(file, tally, SmootherBank::step),
            6 => self.turn(file, tally, SmootherBank::reset),
            7 => self.value(file, tally),
            _ => {
                tally.count(false);
                Ok(())
            }
        }
    }
}
