// The kernel's share of 18, 16 and 19.
ghost use Rattle.std.specs.Prelude.{◌≡◌, true, ◌+◌, length};
ghost use Rattle.limiter.specs.Stores.{lengths_fit};
ghost use Rattle.limiter.specs.Order.{prepared, is_in_order};

use crate::state::Limiter;
use crate::stores::{StoreLengths, lengths_fit};
use arithmetic::number::unit;
use arithmetic::pattern::same_value;

impl Limiter {
    // 18: accepted settings, with look and release coefficient that are theirs.
    pub fn is_prepared(self) -> bool
        ensures { result ≡ prepared self }
    {
        let s = self.settings;
        if !settings::accepted::is_accepted(s, self.spec()) {
            return false;
        }
        let look = settings::derived::look(s.lookahead_ms, self.rate) as usize;
        let coeff = settings::derived::release_coeff(s.release_ms, self.rate);
        (self.env.keeper.look == look) & same_value(self.release_coeff, coeff)
    }

    // 16: whether each store has its exact length.
    pub fn stores_fit(self, lengths: StoreLengths) -> bool
        requires { prepared self ≡ true }
        ensures { result ≡ lengths_fit self.channels self.env.keeper.look lengths }
    {
        lengths_fit(self.channels, self.env.keeper.look, lengths)
    }

    // 19: state and stores in order. The caller has judged the stores' lengths.
    pub fn in_order(self, marks: &[u64], minima: &[f64], row: &[f64]) -> bool
        requires { (length marks.now ≡ self.env.keeper.look + 1) × (length minima.now ≡ self.env.keeper.look + 1) }
        ensures { result ≡ is_in_order self marks.now minima.now row.now }
    {
        let e = self.env;
        let look = e.keeper.look;
        let kept = e.keeper.in_order(marks, minima);
        let rowed = e.attack.in_order(row);
        let gain = unit(e.gain);
        let target = unit(self.target);
        kept & (rowed & ((self.delay_pos < look) & ((self.drained <= look) & (gain & target))))
    }
}
