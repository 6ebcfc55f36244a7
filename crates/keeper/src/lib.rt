// Module 4 of document 01: the floor keeper, from `step_env` of limiter.rs. It keeps the least of
// the latest look + 1 gains in a ring of entries that rise from front to back; the front is the
// floor. The entries lie in two lent stores.
#![tactic(auto)]

ghost use Rattle.std.specs.Prelude.{◌≡◌, ◌+◌, ◌≤◌, length};
ghost use Rattle.keeper.specs.InOrder.{most_frames};
ghost use Rattle.keeper.specs.Keeper.{refusal_of, setup_refusal, step_refusal, fresh_keeper, keeping_at, ordered, setup_at, setup_of, Ready, inner_at, stepped_of, step_at, step_of};
ghost use Rattle.keeper.specs.Run.{floors_at, floors_of};

mod order;
mod ring;

pub use crate::order::look_taken;
use crate::order::{MOST_FRAMES, stores_fit};
use arithmetic::sanitize::unit_gain;

// The Rust's look, wedge_head, wedge_len and frame. Marks and minima are two slices, with a place for
// each entry in both: the C interface lends them so (`daggeryuzu_setup`).
#[derive(Clone, Copy)]
pub struct FloorKeeper {
    // frames by which the audio is held back
    pub look: usize,
    // place of the front entry in the stores
    pub head: usize,
    // entries kept
    pub len: usize,
    // frames taken since setup or reset
    pub frame: u64,
}

// Why a call is refused: 12, 16, 19 or 22. Of a setup only the first two are judged.
#[derive(Clone, Copy, Debug, PartialEq, Eq)]
pub enum KeeperRefusal {
    LookOutOfRange,
    StoreLength,
    OutOfOrder,
    FramesSpent,
}

// What a step tells: the floor, how many entries it dropped at back and front together, and how
// many it keeps.
#[derive(Clone, Copy)]
pub struct Floored {
    pub floor: f64,
    pub dropped: usize,
    pub kept: usize,
}

// Whether a look and its stores are taken: 12 and 16.
fn judge_stores(look: usize, marks: &[u64], minima: &[f64]) -> Result<(), KeeperRefusal>
    ensures { refusal_of result ≡ setup_refusal look marks.now minima.now }
{
    if !look_taken(look) {
        return Err(KeeperRefusal::LookOutOfRange);
    }
    if !stores_fit(look, marks, minima) {
        return Err(KeeperRefusal::StoreLength);
    }
    Ok(())
}

impl FloorKeeper {
    // A keeper with no frame taken; a look of 0 is that of a keeper not set up.
    pub fn fresh(look: usize) -> FloorKeeper
        ensures { result ≡ fresh_keeper look }
    {
        FloorKeeper {
            look,
            head: 0,
            len: 0,
            frame: 0,
        }
    }

    // Both stores are filled with 0; a refused call leaves them as they were.
    pub fn setup(
        look: usize,
        marks: &mut [u64],
        minima: &mut [f64],
    ) -> Result<FloorKeeper, KeeperRefusal>
        ensures { setup_at result marks.new minima.new ≡ setup_of look marks.old minima.old }
    {
        judge_stores(look, marks, minima)?;
        marks.fill(0);
        minima.fill(0.0);
        Ok(FloorKeeper::fresh(look))
    }

    // Whether keeper and stores are in order, in one pass over the entries kept.
    #[tactic(auto, unfolding(crate::specs::InOrder::is_in_order))]
    pub fn in_order(self, marks: &[u64], minima: &[f64]) -> bool
        requires { (length marks.now ≡ self.look + 1) × (length minima.now ≡ self.look + 1) }
        ensures { result ≡ ordered (keeping_at self marks.now minima.now) }
    {
        self.counts_in_order() && self.ring_in_order(marks, minima)
    }

    // One gain step of a keeper in order, for a caller that goes frame by frame: nothing is
    // scanned, and each entry is dropped once.
    pub fn step_in_order(&mut self, marks: &mut [u64], minima: &mut [f64], gain: f64) -> Floored
        requires { Ready (keeping_at self.old marks.old minima.old) }
        ensures stepped { inner_at result self.new marks.new minima.new
            ≡ stepped_of (keeping_at self.old marks.old minima.old) gain }
        ensures kept { result.kept ≡ self.new.len }
    {
        let rg = unit_gain(gain);
        let back = self.drop_back(minima, rg);
        let front = self.drop_front(marks, back);
        let dropped = self.len - front.len;
        self.head = front.head;
        self.len = front.len;
        let place = self.place(self.len);
        marks[place] = self.frame;
        minima[place] = rg;
        self.len += 1;
        self.frame += 1;
        Floored {
            floor: minima[self.head],
            dropped,
            kept: self.len,
        }
    }

    // A run of gain steps: each gain gives way to its floor.
    pub fn floors_in_order(
        self,
        marks: &mut [u64],
        minima: &mut [f64],
        gains: &mut [f64],
    ) -> FloorKeeper
        requires ready { Ready (keeping_at self marks.old minima.old) }
        requires gains_bound { self.frame + length gains.old ≤ most_frames }
        ensures { floors_at result marks.new minima.new gains.new
            ≡ floors_of (keeping_at self marks.old minima.old) gains.old }
    {
        let mut k = self;
        for gain in gains.iter_mut() {
            *gain = k.step_in_order(marks, minima, *gain).floor;
        }
        k
    }

    // Whether a step is taken: 12, 16, 19 and 22.
    fn judge(self, marks: &[u64], minima: &[f64]) -> Result<(), KeeperRefusal>
        ensures { refusal_of result ≡ step_refusal (keeping_at self marks.now minima.now) }
    {
        judge_stores(self.look, marks, minima)?;
        if !self.in_order(marks, minima) {
            return Err(KeeperRefusal::OutOfOrder);
        }
        if self.frame >= MOST_FRAMES {
            return Err(KeeperRefusal::FramesSpent);
        }
        Ok(())
    }

    // One gain step of any keeper on any stores; a refused one changes nothing.
    pub fn step(
        &mut self,
        marks: &mut [u64],
        minima: &mut [f64],
        gain: f64,
    ) -> Result<Floored, KeeperRefusal>
        ensures { step_at result self.new marks.new minima.new
            ≡ step_of (keeping_at self.old marks.old minima.old) gain }
    {
        self.judge(marks, minima)?;
        Ok(self.step_in_order(marks, minima, gain))
    }
}
