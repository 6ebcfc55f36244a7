// The attack row over a run of floors: each floor gives way to the mean of the row that it was
// pushed into.
ghost use Rattle.std.specs.Prelude.{◌≡◌, true, List, ◌+◌, ◌≤◌, ◌<◌, length, take, Float};
ghost use Rattle.envelope.specs.Row.{rowed_at, pos_after, all_unit, row_in_order};
ghost use Rattle.envelope.specs.Mean.{is_all_one};
ghost use Rattle.envelope.specs.Run.{means_at, means_of, sums_of, line_of, sums_along, given, AddedTo, MeansAsked};

use crate::row::AttackRow;

// The position n places on, round at the end of l places.
fn pos_after(l: usize, pos: usize, n: usize) -> usize
    requires pos_lt_l { pos < l }
    requires n_bound { l + n ≤ 65536 }
    ensures { result ≡ pos_after l pos n }
{
    let mut p = pos + n;
    // a remainder takes longer: 10 ns a run where this takes 2 to 4
    while l <= p {
        p -= l;
    }
    p
}

// Whether every floor is 1.0.
fn all_one(floors: &[f64]) -> bool
    ensures { result ≡ is_all_one floors.now }
{
    floors.iter().all(|floor| *floor == 1.0)
}

// The row oldest first, and the floors behind it: straight copies, so that the sums of several
// frames can run side by side.
fn lay_line(row: &[f64], pos: usize, floors: &[f64], line: &mut [f64])
    requires pos_in_bounds { pos < length row.now }
    requires floors_in_bounds { length row.now + length floors.now ≤ length line.old }
    ensures { take (length row.now + length floors.now) line.new
        ≡ line_of pos row.now floors.now }
{
    let l = row.len();
    line[..l - pos].copy_from_slice(&row[pos..]);
    line[l - pos..l].copy_from_slice(&row[..pos]);
    line[l..l + floors.len()].copy_from_slice(floors);
}

// A weight times sixteen floors, from a place of the line on, added to sixteen sums.
fn add_weighted(w: f64, line: &[f64], at: usize, sums: &mut [f64; 16])
    requires sums_len { length sums.old ≡ 16 }
    requires at_in_bounds { at + 16 ≤ length line.now }
    ensures { AddedTo w line.now at sums.old sums.new }
{
    for i in 0..16 {
        sums[i] = sums[i] + w * line[at + i];
    }
}

// The weighted sums of sixteen frames side by side, each in the order of its own: the weights in the
// outer loop, so that the sums stay in registers.
fn sums_from(weights: &[f64], line: &[f64], first: usize) -> [f64; 16]
    requires { first + length weights.now + 16 ≤ length line.now }
    ensures { result ≡ sums_along weights.now line.now first 16 }
{
    let mut sums = [0.0; 16];
    let l = weights.len();
    for j in 0..l {
        add_weighted(weights[j], line, first + l - j, &mut sums);
    }
    sums
}

// The weighted sums of a run's frames.
fn sums_along(weights: &[f64], line: &[f64], n: usize, sums: &mut [f64])
    requires weights_in_bounds { length weights.now + 32 ≤ length line.now }
    requires n_bound { n ≤ 32 }
    requires sums_len { length sums.old ≡ 32 }
    ensures { take n sums.new ≡ sums_along weights.now line.now 0 n }
{
    let early = sums_from(weights, line, 0);
    sums[..16].copy_from_slice(&early);
    if n <= 16 {
        return;
    }
    let late = sums_from(weights, line, 16);
    sums[16..].copy_from_slice(&late);
}

// The mean of a row with this tally and this weighted sum.
fn given(tally: usize, sum: f64) -> f64
    ensures { result ≡ given tally sum }
{
    if tally == 0 { 1.0 } else { sum }
}

// Room for N floats: only its length is promised, so that no goal has them all in it.
fn room<const N: usize>() -> [f64; N]
    ensures { length result ≡ N }
{
    [0.0; N]
}

impl AttackRow {
    // Frame by frame, each mean by a walk of the ring.
    fn means_in_turn(self, weights: &[f64], row: &mut [f64], floors: &mut [f64]) -> AttackRow
        requires { MeansAsked weights.now (rowed_at self row.old) floors.old }
        ensures { means_at result row.new floors.new
            ≡ means_of weights.now (rowed_at self row.old) floors.old }
    {
        let mut a = self;
        for floor in floors.iter_mut() {
            a = a.push(row, *floor);
            *floor = a.mean(weights, row);
        }
        a
    }

    // Frame by frame, with the weighted sums at hand: those of any weights.
    fn means_given(self, row: &mut [f64], floors: &mut [f64], sums: &[f64]) -> AttackRow
        requires row_ordered { row_in_order self row.old ≡ true }
        requires floors_in_bounds { length floors.old ≤ length sums.now }
        requires floors_unit { all_unit floors.old ≡ true }
        ensures { (weights : List Float)
            → take (length floors.old) sums.now ≡ sums_of weights (rowed_at self row.old) floors.old
            → means_at result row.new floors.new ≡ means_of weights (rowed_at self row.old) floors.old }
    {
        let n = floors.len();
        let mut a = self;
        for i in 0..n {
            a = a.push(row, floors[i]);
            floors[i] = given(a.tally, sums[i]);
        }
        a
    }

    // The sums of all frames first, over a line.
    #[tactic(auto, using(crate::proofs::Tally::placed))]
    fn means_along(
        self,
        weights: &[f64],
        row: &mut [f64],
        floors: &mut [f64],
        line: &mut [f64],
    ) -> AttackRow
        requires asked { MeansAsked weights.now (rowed_at self row.old) floors.old }
        requires floors_len_bound { length floors.old ≤ 32 }
        requires row_in_bounds { length row.old + 32 ≤ length line.old }
        ensures { means_at result row.new floors.new
            ≡ means_of weights.now (rowed_at self row.old) floors.old }
    {
        let pos = self.pos;
        lay_line(row, pos, floors, line);
        let mut sums = room::<32>();
        sums_along(weights, line, floors.len(), &mut sums);
        self.means_given(row, floors, &sums)
    }

    // The same with a line of N places of its own.
    fn means_in<const N: usize>(
        self,
        weights: &[f64],
        row: &mut [f64],
        floors: &mut [f64],
    ) -> AttackRow
        requires asked { MeansAsked weights.now (rowed_at self row.old) floors.old }
        requires floors_len_bound { length floors.old ≤ 32 }
        requires row_in_bounds { length row.old + 32 ≤ N }
        requires places_bound { N ≤ 4128 }
        ensures { means_at result row.new floors.new
            ≡ means_of weights.now (rowed_at self row.old) floors.old }
    {
        let mut line = room::<N>();
        self.means_along(weights, row, floors, &mut line)
    }

    // Each floor of a run gives way to its mean. Where row and floors are nothing but 1, so are the
    // means, and only the position goes on. A short run goes frame by frame.
    #[tactic(auto, using(crate::proofs::Tally::placed))]
    pub fn means(self, weights: &[f64], row: &mut [f64], floors: &mut [f64]) -> AttackRow
        requires { MeansAsked weights.now (rowed_at self row.old) floors.old }
        ensures { means_at result row.new floors.new
            ≡ means_of weights.now (rowed_at self row.old) floors.old }
    {
        let l = row.len();
        let n = floors.len();
        if n > 32 || l > 4096 {
            return self.means_in_turn(weights, row, floors);
        }
        if self.tally == 0 && all_one(floors) {
            return AttackRow {
                pos: pos_after(l, self.pos, n),
                tally: 0,
            };
        }
        if n < 8 {
            return self.means_in_turn(weights, row, floors);
        }
        if l <= 96 {
            return self.means_in::<128>(weights, row, floors);
        }
        self.means_in::<4128>(weights, row, floors)
    }
}
