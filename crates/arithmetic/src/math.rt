// `exp`, by the steps of musl's e_exp.c (math.rs, over libm). Only −700 to 0 is asked for: a target
// and a smoothing coefficient come from nowhere else.
ghost use Rattle.std.specs.Prelude.{◌≡◌, ◌<◌, ◌≤◌, true};
ghost use Rattle.arithmetic.specs.Exp.{in_domain, high_of, cutting, cut_of, power_of, correction, scaled, reduced, exp_at, exp_reply};
ghost use Rattle.arithmetic.specs.Answers.{reply_of};

const LN2HI: f64 = 6.93147180369123816490e-01;

const LN2LO: f64 = 1.90821492927058770002e-10;

const INVLN2: f64 = 1.44269504088896338700e+00;

const P1: f64 = 1.66666666666666019037e-01;

const P2: f64 = -2.77777777770155933842e-03;

const P3: f64 = 6.61375632143793436117e-05;

const P4: f64 = -1.65339022054652515390e-06;

const P5: f64 = 4.13813679705723846039e-08;

// 26: an argument outside −700 to 0.
#[derive(Clone, Copy, Debug, PartialEq, Eq)]
pub struct OutOfDomain;

// e to the x for −700 to 0.
pub fn exp(x: f64) -> Result<f64, OutOfDomain>
    ensures { reply_of result ≡ exp_reply x }
{
    if x >= -700.0 {
        if x <= 0.0 {
            let h = f64::to_bits(x) / 0x1_0000_0000 % 0x8000_0000;
            return Ok(exp_at(h, x));
        }
    }
    Err(OutOfDomain)
}

// The three ranges of h, the upper 32 bits of x without its sign.
fn exp_at(h: u64, x: f64) -> f64
    requires domain { in_domain x ≡ true }
    requires high { h ≡ high_of x }
    ensures { result ≡ exp_at h x }
{
    if h <= 0x3e30_0000 {
        return 1.0 + x;
    }
    if h <= 0x3fd6_2e42 {
        return scaled(x, x, 0.0, 0);
    }
    if h < 0x3ff0_a2b2 {
        return reduced(x, 1);
    }
    reduced(x, cut(x))
}

// What is cut: −(INVLN2 × x − 0.5).
fn cutting(x: f64) -> f64
    ensures { result ≡ cutting x }
{
    -(INVLN2 * x - 0.5)
}

// −k: how often ln 2 goes into −x, rounded.
fn cut(x: f64) -> u64
    requires domain { in_domain x ≡ true }
    requires some { 0 < high_of x }
    ensures value { result ≡ cut_of x }
    ensures few { result ≤ 1010 }
{
    std::num::truncating_f64_to_u64(cutting(x))
}

// The argument is reduced by n times ln 2, in two parts.
fn reduced(x: f64, n: u64) -> f64
    requires { n ≤ 1010 }
    ensures { result ≡ reduced x n }
{
    let k = -(n as f64);
    let hi = x - k * LN2HI;
    let lo = k * LN2LO;
    scaled(hi - lo, hi, lo, n)
}

// 1 + (x × c / (2 − c) − lo + hi), times 2 to the −n.
fn scaled(x: f64, hi: f64, lo: f64, n: u64) -> f64
    requires { n ≤ 1010 }
    ensures { result ≡ scaled x hi lo n }
{
    let c = correction(x, x * x);
    let y = 1.0 + (x * c / (2.0 - c) - lo + hi);
    y * power(n)
}

// c: x less its polynomial in q, the square of x.
fn correction(x: f64, q: f64) -> f64
    ensures { result ≡ correction x q }
{
    x - q * (P1 + q * (P2 + q * (P3 + q * (P4 + q * P5))))
}

// 2 to the −n, by its exponent field.
fn power(n: u64) -> f64
    requires { n ≤ 1022 }
    ensures { result ≡ power_of n }
{
    f64::from_bits((1023 - n) * 0x10_0000_0000_0000)
}
