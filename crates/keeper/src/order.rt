// The checks of the calls: 12, 16 and 19.
ghost use Rattle.std.specs.Prelude.{◌≡◌, true, ◌&&◌, List, ℕ, ◌+◌, ◌-◌, ◌≤◌, ◌<◌, ◌^◌, eqb, Float, length};
ghost use Rattle.std.specs.Bool.{beq};
ghost use Rattle.keeper.specs.Ring.{entry_at};
ghost use Rattle.keeper.specs.InOrder.{counts_in_order, ring_in_order, rising, less_mark, less_minimum, last_mark, first_mark, unit_minima};
ghost use Rattle.keeper.specs.Keeper.{keeping_at, entries_of, look_taken, stores_fit, Placed};

use crate::FloorKeeper;

// The most frames since a reset: 2^40.
pub const MOST_FRAMES: u64 = 1099511627776;

// 12: look under 11 or over 4,096.
pub fn look_taken(look: usize) -> bool
    ensures { result ≡ look_taken look }
{
    (11..=4096).contains(&look)
}

// 16: a store's length.
pub fn stores_fit(look: usize, marks: &[u64], minima: &[f64]) -> bool
    requires { look ≤ 4096 }
    ensures { result ≡ stores_fit look marks.now minima.now }
{
    let cap = look + 1;
    marks.len() == cap && minima.len() == cap
}

// Whether the entry at a place is above the one before it, in mark and in minimum.
pub fn rises(marks: &[u64], minima: &[f64], before: usize, at: usize) -> bool
    requires { (before < length marks.now) × (before < length minima.now) × (at < length marks.now) × (at < length minima.now) }
    ensures { result
        ≡ (less_mark (entry_at marks.now minima.now before) (entry_at marks.now minima.now at)
        && less_minimum (entry_at marks.now minima.now before) (entry_at marks.now minima.now at)) }
{
    (marks[before] < marks[at]) & (minima[before] < minima[at])
}

impl FloorKeeper {
    // The part of in order that reads no store.
    pub(crate) fn counts_in_order(self) -> bool
        requires { self.look < 2 ^ 63 }
        ensures { result ≡ counts_in_order self.look self.head self.len self.frame }
    {
        self.frame <= MOST_FRAMES
            && self.len <= self.look + 1
            // no entry is kept exactly when no frame was taken
            && (self.len == 0) == (self.frame == 0)
            && self.head <= self.look
    }

    // Whether marks and minima rise strictly from front to back: all of them are read, without a way out.
    fn entries_rise(self, marks: &[u64], minima: &[f64]) -> bool
        requires placed { Placed self marks.now }
        requires minima_fit { length minima.now ≡ self.look + 1 }
        ensures { result
            ≡ (rising less_mark (entries_of (keeping_at self marks.now minima.now))
            && rising less_minimum (entries_of (keeping_at self marks.now minima.now))) }
    {
        let mut ok = true;
        let mut at = self.head;
        for i in 1..self.len {
            let next = self.place(i);
            ok &= rises(marks, minima, at, next);
            at = next;
        }
        ok
    }

    // Whether each minimum lies within 0 and 1, for minima that rise: the first and the last tell.
    fn minima_unit(self, minima: &[f64]) -> bool
        requires { Placed self minima.now }
        ensures { (marks : List ℕ) → rising less_minimum (entries_of (keeping_at self marks minima.now)) ≡ true
            → result ≡ unit_minima (entries_of (keeping_at self marks minima.now)) }
    {
        if self.len == 0 {
            return true;
        }
        let last = self.place(self.len - 1);
        (0.0 <= minima[self.head]) & (minima[last] <= 1.0)
    }

    // Whether the last mark is below the frame count by 1, and the first not more than look + 1.
    fn ends_fit(self, marks: &[u64]) -> bool
        requires { Placed self marks.now }
        ensures { (minima : List Float) → result
            ≡ (last_mark self.frame (entries_of (keeping_at self marks.now minima))
            && first_mark self.look self.frame (entries_of (keeping_at self marks.now minima))) }
    {
        if self.len == 0 {
            return true;
        }
        if self.frame == 0 {
            return false;
        }
        let last = self.place(self.len - 1);
        let first = self.frame.saturating_sub(self.look as u64 + 1);
        marks[last] == self.frame - 1 && first <= marks[self.head]
    }

    // The part of in order that reads the entries.
    pub(crate) fn ring_in_order(self, marks: &[u64], minima: &[f64]) -> bool
        requires placed { Placed self marks.now }
        requires minima_fit { length minima.now ≡ self.look + 1 }
        ensures { result ≡ ring_in_order self.look self.frame (entries_of (keeping_at self marks.now minima.now)) }
    {
        self.ends_fit(marks) && self.entries_rise(marks, minima) && self.minima_unit(minima)
    }
}
