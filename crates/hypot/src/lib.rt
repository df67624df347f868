// hypot of two `f64`, correctly rounded, ties to even, from bits and whole numbers. A pattern b below the infinity's is k * 2^52 + m: its number is
// m * 2^k units of 2^-1074, for m the significand and k one less than the exponent's field, or zero where that is zero.
#![tactic(auto)]

mod rounding; // The digits of a root rounded to the pattern of an `f64`, ties to even

ghost use Rattle.std.specs.Prelude.{◌≡◌, ◌+◌, ◌-◌, ◌*◌, ◌/◌, ◌^◌, ◌≤◌, ◌<◌, T};
ghost use Rattle.std.specs.Float.{binary64};
ghost use Rattle.std.specs.Float.Ieee.{to_bits, of_bits};
ghost use Rattle.std.specs.Float.Ieee.Scale.{finite};
ghost use Rattle.leaves.specs.Leaf.{magnitude};
ghost use Rattle.hypot.specs.RoundingParts.{low, val};
ghost use Rattle.hypot.specs.Hypot2.{root_of_sum, hypot2};
ghost use Rattle.hypot.specs.NearestEven.{NearestEven};
ghost use Rattle.hypot.specs.Edition.{pythag};

use crate::rounding::rounded;
use leaves::{hypot, magnitude};
use root::{Found, digits, not_a_number};

// The pattern of an infinity, above those of the finite numbers and below a NaN's.
const INFINITY: u64 = 0x7ff0_0000_0000_0000;

// The pattern of |x|, and that of the one NaN.
fn pattern(x: f64) -> u64
    ensures { result ≡ to_bits binary64 (magnitude x) }
{
    let m = magnitude(x);
    if m.is_nan() {
        0x7ff8_0000_0000_0000
    } else {
        m.to_bits()
    }
}

// How many digits a pattern's number has after the significand.
fn low(b: u64) -> u64
    ensures { result ≡ low b }
{
    (b / 0x10_0000_0000_0000).saturating_sub(1)
}

// 4 * (m * m + n * n / p) without its fraction, and what the quotient loses.
fn radicand(m: u64, n: u64, p: u64) -> (u128, u64)
    requires { (m < 2 ^ 53) × (n < 2 ^ 53) × (0 < p) }
    ensures { (result.0 * p + result.1 ≡ 4 * (m * m * p + n * n)) × (result.1 < p) × (result.0 < 2 ^ 110) }
{
    let m = m as u128;
    let n = n as u128;
    let p = p as u128;
    let square = 4 * (n * n);
    (4 * (m * m) + square / p, (square % p) as u64)
}

// The whole root of n, and what is left over: two rounds of twenty-eight digits by the school method, the first two of each at the top.
fn whole_root(n: u128) -> Found
    requires { n < 2 ^ 110 }
    ensures { (result.s * result.s + result.r ≡ n) × (result.r ≤ 2 * result.s) }
{
    let w = digits(Found { s: 0, r: 0 }, (n >> 56) as u64 * 64, 28);
    digits(w, (n % 0x100_0000_0000_0000) as u64 * 64, 28)
}

// The pattern of the root of the sum of two squares, by the patterns of the two numbers, the greater first.
fn length(a: u64, b: u64) -> u64
    requires { (b ≤ a) × (a < 0x7ff0_0000_0000_0000) }
    ensures { (of_bits binary64 result ≡ root_of_sum (val a * val a + val b * val b)) × (result ≤ 0x7ff0_0000_0000_0000) }
{
    let i = low(a);
    let j = low(b);
    if i - j >= 27 {
        return a;
    }
    let (whole, lost) = radicand(
        a - i * 0x10_0000_0000_0000,
        b - j * 0x10_0000_0000_0000,
        1 << (2 * (i - j)),
    );
    let w = whole_root(whole);
    rounded(i, w.s, w.r + lost)
}

// The `f64` that is nearest to the root of x * x + y * y. An infinity gives an infinity, also beside a NaN.
fn hypot2(x: f64, y: f64) -> f64
    ensures value { result ≡ hypot2 x y }
    ensures nearest { T (finite x) → T (finite y) → NearestEven x y result }
{
    let a = pattern(x);
    let b = pattern(y);
    if (a == INFINITY) | (b == INFINITY) {
        return f64::INFINITY;
    }
    if (a > INFINITY) | (b > INFINITY) {
        return not_a_number();
    }
    // A branch, which the processor guesses: with `max` and `min` a call takes 102.7 ns in place of 99.1.
    if a < b {
        f64::from_bits(length(b, a))
    } else {
        f64::from_bits(length(a, b))
    }
}

// hypot by its edition: the scope's rule for 1, and else the nearest `f64`. The one name by which `tql2` reaches hypot, and an edition is the
// number that C gives.
pub fn pythag(edition: usize, x: f64, y: f64) -> f64
    ensures { result ≡ pythag edition x y }
{
    if edition == 1 {
        hypot(x, y)
    } else {
        hypot2(x, y)
    }
}
