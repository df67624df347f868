// Two square roots side by side, a turn of each in one loop: neither waits for the other. Each is worked out as `root` does it, digit by digit, by the names of docs/ROOT.md.
ghost use Rattle.std.specs.Prelude.{◌≡◌, ◌+◌, ◌-◌, ◌*◌, ◌/◌, ◌%◌, ◌^◌, ◌<◌, ◌≤◌, T, if◌then◌else◌, from_bits, nat_lt};
ghost use Rattle.std.specs.Float.{binary64};
ghost use Rattle.std.specs.Float.Ieee.Positive.{positive};
ghost use Rattle.root.specs.Root.{root};
ghost use Rattle.root.specs.Parts.{root_bits};
ghost use Rattle.root.specs.School.{digits};
ghost use Rattle.root.specs.Nearest.{Nearest};

use crate::{Found, Radicand, chosen, pattern, positive, root};

// One of the two before a turn: the remainder with two digits brought down behind it, and the root with 01 behind it. The next two digits are ready in `down`, the pairs
// after them in `pairs`, the first at its very top.
#[derive(Clone, Copy)]
struct Lane {
    down: u64,
    pairs: u64,
    remainder: u64,
    with_01: u64,
}

impl Lane {
    // Before the first turn, for the digits of n, the first two in its bits 61 and 60.
    fn new(n: u64) -> Lane
        ensures { result ≡ record { down = n / 2 ^ 58 % 4; pairs = n * 2 ^ 6 % 2 ^ 64; remainder = n / 2 ^ 60; with_01 = 1 } }
    {
        Lane {
            down: (n >> 58) % 4,
            pairs: n << 6,
            remainder: n >> 60,
            with_01: 1,
        }
    }

    // A turn. The root with 01 is taken off before it is known whether it goes into the remainder: where it doesn't, the top bit of what comes out is set. The digit is told
    // by that bit since for a comparison of the two the compiler makes a longer loop.
    fn turn(self) -> Lane
        requires { (self.down < 4) × (self.remainder < 2 ^ 60) × (self.with_01 < 2 ^ 60) × (1 ≤ self.with_01) }
        ensures down { result.down ≡ self.pairs / 2 ^ 62 }
        ensures pairs { result.pairs ≡ self.pairs * 2 ^ 2 % 2 ^ 64 }
        ensures remainder { result.remainder ≡ (if nat_lt self.remainder self.with_01 then self.remainder else self.remainder - self.with_01) * 4 + self.down }
        ensures with_01 { result.with_01 ≡ (if nat_lt self.remainder self.with_01 then self.with_01 * 2 - 1 else self.with_01 * 2 + 3) }
    {
        let off = self.remainder.wrapping_sub(self.with_01);
        let digit = off < 0x8000_0000_0000_0000;
        let left = chosen(digit, off, self.remainder);
        Lane {
            down: self.pairs >> 62,
            pairs: self.pairs << 2,
            remainder: left * 4 + self.down,
            with_01: chosen(digit, self.with_01 * 2 + 3, self.with_01 * 2 - 1),
        }
    }

    // The root and what is left, without the two digits behind each.
    fn found(self) -> Found
        ensures { result ≡ record { s = self.with_01 / 4; r = self.remainder / 4 } }
    {
        Found {
            s: self.with_01 / 4,
            r: self.remainder / 4,
        }
    }
}

// 53 digits of each root, from nothing: what `digits` gives of n and of o.
fn digits_pair(n: u64, o: u64) -> (Found, Found)
    requires { (n < 2 ^ 62) × (o < 2 ^ 62) }
    ensures { result ≡ (digits 53 n (record { s = 0; r = 0 }), digits 53 o (record { s = 0; r = 0 })) }
{
    let mut first = Lane::new(n);
    let mut second = Lane::new(o);
    for _ in 0..53_u64 {
        first = first.turn();
        second = second.turn();
    }
    (first.found(), second.found())
}

// The roots of the numbers with the bit patterns b and c, which are finite and above zero.
fn roots_of_bits(b: u64, c: u64) -> (f64, f64)
    requires { (0 < b) × (b < 0x7ff0_0000_0000_0000) × (0 < c) × (c < 0x7ff0_0000_0000_0000) }
    ensures { result ≡ (from_bits binary64 (root_bits b), from_bits binary64 (root_bits c)) }
{
    let x = Radicand::of(b);
    let y = Radicand::of(c);
    let (v, w) = digits_pair(x.n << 8, y.n << 8);
    (
        f64::from_bits(pattern(x.x, v)),
        f64::from_bits(pattern(y.x, w)),
    )
}

// The roots of x and y, those of numbers that are not above zero or not finite one by one.
pub fn roots(x: f64, y: f64) -> (f64, f64)
    ensures value { result ≡ (root x, root y) }
    ensures nearest { (T (positive x) → Nearest x result.0) × (T (positive y) → Nearest y result.1) }
{
    if positive(x) & positive(y) {
        return roots_of_bits(x.to_bits(), y.to_bits());
    }
    (root(x), root(y))
}
