// The leaves: the magnitude, the larger of two, the finite test and hypot; and what is said of a number that is not finite.
#![tactic(auto)]

pub mod scan; // The first number that is not finite, of a list, of a matrix, or on and below its diagonal

ghost use Rattle.std.specs.Prelude.{◌≡◌};
ghost use Rattle.leaves.specs.Leaf.{magnitude, larger, is_finite, hypot_of, hypot};
ghost use Rattle.leaves.specs.Scan.{class_of};

use root::root;

// A number that is not finite: its index, and its class, which is what a mark answers for it: a number, since the theorems of marks speak of it as one.
#[derive(Clone, Copy)]
pub struct Bad {
    pub index: usize,
    pub class: usize,
}

// Row i, column j.
#[derive(Clone, Copy)]
pub struct Place {
    pub i: usize,
    pub j: usize,
}

// |x|: the sign bit is cleared, also of -0.0.
pub fn magnitude(x: f64) -> f64
    ensures { result ≡ magnitude x }
{
    if x < 0.0 {
        return -x;
    }
    if x == 0.0 {
        return 0.0;
    }
    x
}

// b where a is below b, else a: also a where one of them is a NaN.
pub fn larger(a: f64, b: f64) -> f64
    ensures { result ≡ larger a b }
{
    if a < b { b } else { a }
}

// A finite number less itself is zero; an infinity's or a NaN's difference is a NaN.
pub fn is_finite(x: f64) -> bool
    ensures { result ≡ is_finite x }
{
    x - x == 0.0
}

// hypot of two magnitudes, the greater first.
fn hypot_of(a: f64, b: f64) -> f64
    ensures { result ≡ hypot_of a b }
{
    if a == 0.0 {
        0.0
    } else {
        let q = b / a;
        a * root(1.0 + q * q)
    }
}

// The length of (x, y): the greater magnitude is taken out, and each step rounds.
pub fn hypot(x: f64, y: f64) -> f64
    ensures { result ≡ hypot x y }
{
    let p = magnitude(x);
    let q = magnitude(y);
    if p < q {
        hypot_of(q, p)
    } else {
        hypot_of(p, q)
    }
}

// What a mark answers for a number that is not finite: 8 where it is infinite, 10 where it is NaN.
pub fn class_of(x: f64) -> usize
    ensures { result ≡ class_of x }
{
    if x == x { 8 } else { 10 }
}
