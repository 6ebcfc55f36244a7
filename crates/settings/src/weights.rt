// The weights rule, by which setup judges what a host lends; the house's weights pass it by law.
ghost use Rattle.std.specs.Prelude.{◌≡◌, ◌^◌, ◌≤◌, true, length};
ghost use Rattle.settings.specs.Weights.{in_unit, part_of, all_in_unit, near, sums_up, mirrored, rising, first_half, accepted};

fn in_unit(w: f64) -> bool
    ensures { result ≡ in_unit w }
{
    (0.0 < w) & (w <= 1.0)
}

// The whole part of w × 2^60: the product only moves the exponent, so it is exact.
fn part(w: f64) -> u64
    requires { in_unit w ≡ true }
    ensures value { result ≡ part_of w }
    ensures upper_bound { result ≤ 2 ^ 60 }
{
    std::num::truncating_f64_to_u64(w * 1152921504606846976.0)
}

// Each weight above 0 and at most 1.0, and the sum of their parts close to 2^60. The sum stops at the
// first part that takes it past its limit, so it never wraps.
fn sums_up(weights: &[f64]) -> bool
    requires { length weights.now ≤ 4096 }
    ensures { result ≡ sums_up weights.now }
{
    let slack = 512 * (weights.len() as u64);
    let most = 1152921504606846976 + slack;
    let mut sum: u64 = 0;
    for w in weights {
        if !in_unit(*w) {
            return false;
        }
        sum += part(*w);
        if most < sum {
            return false;
        }
    }
    1152921504606846976 <= sum + slack
}

// Whether the parts of two weights differ by at most 4,096.
fn parts_near(w: f64, u: f64) -> bool
    requires { (in_unit w ≡ true) × (in_unit u ≡ true) }
    ensures { result ≡ near (part_of w) (part_of u) 4096 }
{
    let slack: u64 = 4096;
    let a = part(w);
    let b = part(u);
    (a <= b + slack) & (b <= a + slack)
}

// Whether parts at mirrored places are close: the first half tells, since each place is its mirror's mirror.
fn mirrored(weights: &[f64]) -> bool
    requires { all_in_unit weights.now ≡ true }
    ensures { result ≡ mirrored weights.now }
{
    // by index: `parts_near` asks of both weights what a closure over the pairs does not know
    for i in 0..weights.len() / 2 {
        if !parts_near(weights[i], weights[weights.len() - 1 - i]) {
            return false;
        }
    }
    true
}

// Whether the weights rise strictly up to the middle place.
fn rising(weights: &[f64]) -> bool
    ensures { result ≡ rising (first_half weights.now) }
{
    weights[..weights.len().div_ceil(2)].is_sorted_by(|v, w| v < w)
}

// Whether the weights are accepted. That they are few comes from `lengths_fit` before, and is a clause of the three that read
// them: a struct of them would be made for this call alone.
pub fn accepted(weights: &[f64]) -> bool
    requires { length weights.now ≤ 4096 }
    ensures { result ≡ accepted weights.now }
{
    if !sums_up(weights) {
        return false;
    }
    mirrored(weights) & rising(weights)
}
