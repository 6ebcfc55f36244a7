// The ring in the lent stores: places, and the drops at its back and front.
ghost use Rattle.std.specs.Prelude.{◌≡◌, List, ℕ, ◌+◌, ◌-◌, ◌≤◌, ◌<◌, ◌^◌, Float};
ghost use Rattle.keeper.specs.Ring;
ghost use Rattle.keeper.specs.Ring.{ring_of, drop_back, drop_front};
ghost use Rattle.keeper.specs.Keeper.{keeping_at, entries_of, Placed};

use crate::FloorKeeper;

// Place of index i in a store of cap places, for an i of at most one turn more.
pub fn wrap(cap: usize, i: usize) -> usize
    ensures { result ≡ Ring.wrap cap i }
{
    if i >= cap { i - cap } else { i }
}

// Where the front is, and how many entries stay.
#[derive(Clone, Copy)]
pub struct Front {
    pub head: usize,
    pub len: usize,
}

impl FloorKeeper {
    // The place of the entry at an index, 0 for the front.
    pub(crate) fn place(self, i: usize) -> usize
        requires { (self.look < 2 ^ 62) × (self.head ≤ self.look) × (i ≤ self.look + 1) }
        ensures value { result ≡ Ring.wrap (self.look + 1) (self.head + i) }
        ensures inside { result < self.look + 1 }
    {
        wrap(self.look + 1, self.head + i)
    }

    // How many entries stay when each one not below the gain is dropped from the back. The marks
    // play no part: the entries are those of any marks.
    pub(crate) fn drop_back(self, minima: &[f64], gain: f64) -> usize
        requires { Placed self minima.now }
        ensures { (marks : List ℕ) → ring_of (self.look + 1) marks minima.now self.head result
            ≡ drop_back gain (entries_of (keeping_at self marks minima.now)) }
    {
        // a turn knows that its place lies in the store, which a closure would not
        for back in (0..self.len).rev() {
            let at = self.place(back);
            if minima[at] < gain {
                return back + 1;
            }
        }
        0
    }

    // What is left of the first len entries when each one more than look back is dropped from the
    // front, for any minima. The front moves on by as many places as entries are dropped.
    pub(crate) fn drop_front(self, marks: &[u64], len: usize) -> Front
        requires placed { Placed self marks.now }
        requires few { len ≤ self.look + 1 }
        ensures ring_left { (minima : List Float) → ring_of (self.look + 1) marks.now minima result.head result.len
            ≡ drop_front self.look self.frame (ring_of (self.look + 1) marks.now minima self.head len) }
        ensures places { (result.len ≤ len) × (result.head ≡ Ring.wrap (self.look + 1) (self.head + (len - result.len))) }
    {
        // an entry with a mark below this one is more than look back
        let first = self.frame.saturating_sub(self.look as u64);
        let mut at = self.head;
        for dropped in 0..len {
            if marks[at] >= first {
                return Front {
                    head: at,
                    len: len - dropped,
                };
            }
            at = wrap(self.look + 1, at + 1);
        }
        Front { head: at, len: 0 }
    }
}
