// The digits of a root rounded to the pattern of an `f64`, ties to even. A pattern below the infinity's is k * 2^52 + m: its number is m * 2^k units of 2^-1074.
ghost use Rattle.std.specs.Prelude.{◌≡◌, ◌+◌, ◌^◌, ◌<◌};
ghost use Rattle.hypot.specs.RoundingParts.{digit, packed, rounded};

// What is added before the last digit of s is dropped: 1 where more follows s, else, for a tie, the digit that makes the result even.
fn digit(s: u64, t: u64) -> u64
    ensures { result ≡ digit s t }
{
    if t == 0 { s / 2 % 2 } else { 1 }
}

// The pattern of s / 2 * 2^k units, rounded, for an s of 54 digits at most. Where t is not zero, more follows s.
fn packed(k: u64, s: u64, t: u64) -> u64
    requires { (k < 2 ^ 11) × (s < 2 ^ 54) }
    ensures { result ≡ packed k s t }
{
    let b = k * 0x10_0000_0000_0000 + (s + digit(s, t)) / 2;
    b.min(0x7ff0_0000_0000_0000)
}

// The same for an s of 55 digits at most.
pub fn rounded(k: u64, s: u64, t: u64) -> u64
    requires { (k + 1 < 2 ^ 11) × (s < 2 ^ 55) × (t < 2 ^ 63) }
    ensures { result ≡ rounded k s t }
{
    if s < 0x40_0000_0000_0000 {
        packed(k, s, t)
    } else {
        packed(k + 1, s / 2, t + s % 2)
    }
}
