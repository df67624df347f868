// The square root of an `f64`, correctly rounded, from its bits and whole numbers.
#![tactic(auto)]

pub mod side_by_side; // Two square roots side by side, a turn of each in one loop

ghost use Rattle.std.specs.Prelude.{◌≡◌, ◌+◌, ◌-◌, ◌*◌, ◌/◌, ◌^◌, ◌<◌, ◌≤◌, T, if◌then◌else◌, nat_lt};
ghost use Rattle.std.specs.Float.{nan};
ghost use Rattle.std.specs.Float.Ieee.Positive.{positive};
ghost use Rattle.root.specs.Root.{root};
ghost use Rattle.root.specs.Parts.{sig, exp, even, root_bits};
ghost use Rattle.root.specs.School.{digits};
ghost use Rattle.root.specs.Nearest.{Nearest};

// The NaN of a root. The constant compiles to the bits 7ff8000000000000, and (x - x) / (x - x) would not.
pub fn not_a_number() -> f64
    ensures { result ≡ nan }
{
    f64::NAN
}

// The significand of the number with the bit pattern b, in 53 binary digits, and its exponent: the
// number is m * 2^x / 2^1127. Below 2^52 the pattern is subnormal, and is its own significand.
fn significand(b: u64) -> u64
    requires { 0 < b }
    ensures { result ≡ sig b }
{
    if b < 0x10_0000_0000_0000 {
        b << (b.leading_zeros() - 11)
    } else {
        0x10_0000_0000_0000 + b % 0x10_0000_0000_0000
    }
}

fn exponent(b: u64) -> u64
    requires { 0 < b }
    ensures { result ≡ exp b }
{
    if b < 0x10_0000_0000_0000 {
        (64 - b.leading_zeros()) as u64
    } else {
        b / 0x10_0000_0000_0000 + 52
    }
}

// m, or twice m where x is even, so that what is left of the exponent is even.
fn paired(m: u64, x: u64) -> u64
    requires { m < 2 ^ 53 }
    ensures { result ≡ even m x }
{
    if x % 2 == 0 { m * 2 } else { m }
}

// What the root of a number is taken of: n, its significand or twice that, and its own exponent x.
#[derive(Clone, Copy)]
struct Radicand {
    n: u64,
    x: u64,
}

impl Radicand {
    // That of the number with the bit pattern b, which is finite and above zero.
    fn of(b: u64) -> Radicand
        requires b_nonzero { 0 < b }
        requires b_bound { b < 0x7ff0_0000_0000_0000 }
        ensures { result ≡ record { n = even (sig b) (exp b); x = exp b } }
    {
        let x = exponent(b);
        Radicand {
            n: paired(significand(b), x),
            x,
        }
    }
}

// The root so far, and what is left of the digits brought down.
#[derive(Clone, Copy)]
pub struct Found {
    pub s: u64,
    pub r: u64,
}

// What a turn goes on with for the digit: a select, no branch, which a processor would guess wrong every other time.
fn chosen(digit: bool, one: u64, zero: u64) -> u64
    ensures { result ≡ (if digit then one else zero) }
{
    if digit { one } else { zero }
}

// The school method by the names of docs/ROOT.md: k turns from a root and what is left, where the number goes on with the digits of n, the first two at its top, bits 61
// and 60, and then with zeros. What can be done before the digit is known is done, so that a turn waits for a comparison, a select and a subtraction alone: the remainder
// moves up and takes the next two digits, ready in `down`, and what is then taken off is the root with 01 moved up as far, `moved_up`; what that root is after a digit 0
// is ready in `after_0`. The pairs behind `down` stand in `pairs`, the first at its very top.
pub fn digits(from: Found, n: u64, k: u64) -> Found
    requires { (from.r ≤ from.s * 2) × (n < 2 ^ 62) × ((from.s + 1) * 2 ^ k ≤ 2 ^ 57) }
    ensures { result ≡ digits k n from }
{
    let mut down = (n >> 58) % 4;
    let mut pairs = n << 6;
    let mut remainder = from.r * 4 + (n >> 60);
    let mut with_01 = from.s * 4 + 1;
    let mut moved_up = from.s * 16 + 4;
    let mut after_0 = from.s * 8 + 1;
    for _ in 0..k {
        let digit = !(remainder < with_01); // for >= the compiler takes a select that is slower on some processors
        let off = chosen(digit, moved_up, 0);
        with_01 = chosen(digit, with_01 * 2 + 3, after_0);
        moved_up = with_01 * 4;
        after_0 = with_01 * 2 - 1;
        remainder = remainder * 4 + down - off;
        down = pairs >> 62;
        pairs = pairs << 2;
    }
    Found {
        s: with_01 / 4,
        r: remainder / 4,
    }
}

// The whole number nearest to a root. Halfway from s to s + 1 lies s * s + s and a quarter, so it is s + 1 where the remainder is above s.
fn rounded(w: Found) -> u64
    requires { w.s < 2 ^ 53 }
    ensures { result ≡ (if nat_lt w.s w.r then w.s + 1 else w.s) }
{
    if w.r > w.s { w.s + 1 } else { w.s }
}

// The bit pattern of the root of a number with the exponent x, by its digits and what is left.
fn pattern(x: u64, w: Found) -> u64
    requires { (x ≤ 2098) × (w.s < 2 ^ 53) }
    ensures { result ≡ (x + 969) / 2 * 2 ^ 52 + (if nat_lt w.s w.r then w.s + 1 else w.s) }
{
    (x + 969) / 2 * 0x10_0000_0000_0000 + rounded(w)
}

// The bit pattern of the root of the number with the bit pattern b, which is finite and above zero: 53 digits of the root of n * 2^52, the first two digits of n at the top.
fn root_bits(b: u64) -> u64
    requires b_nonzero { 0 < b }
    requires b_bound { b < 0x7ff0_0000_0000_0000 }
    ensures { result ≡ root_bits b }
{
    let a = Radicand::of(b);
    pattern(a.x, digits(Found { s: 0, r: 0 }, a.n << 8, 53))
}

// Finite and above zero.
fn positive(x: f64) -> bool
    ensures { result ≡ positive x }
{
    (0.0 < x) & (x < f64::INFINITY)
}

// The `f64` that is nearest to the root of x.
pub fn root(x: f64) -> f64
    ensures value { result ≡ root x }
    ensures nearest { T (positive x) → Nearest x result }
{
    if positive(x) {
        return f64::from_bits(root_bits(x.to_bits()));
    }
    if (x == 0.0) | (x == f64::INFINITY) {
        x
    } else {
        not_a_number()
    }
}
