// Whole numbers with a sign, exact in 64 bits, and the test against 2^53.
ghost use Rattle.std.specs.Prelude.{◌≡◌, false, pos, ◌+ℤ◌, ◌-ℤ◌, ◌*ℤ◌, ◌≤◌};
ghost use Rattle.std.specs.Int.{w64};
ghost use Rattle.std.proofs.Common.{SFits};
ghost use Rattle.std.specs.Float.{binary64};
ghost use Rattle.std.specs.Float.Ieee.{of_int};
ghost use Rattle.covariance.specs.Over53.{over};

// The sum, the difference and the product of two whole numbers, each where it fits.
pub fn plus(a: i64, b: i64) -> i64
    requires { SFits w64 (a +ℤ b) }
    ensures { result ≡ a +ℤ b }
{
    a + b
}

pub fn minus(a: i64, b: i64) -> i64
    requires { SFits w64 (a -ℤ b) }
    ensures { result ≡ a -ℤ b }
{
    a - b
}

pub fn times(a: i64, b: i64) -> i64
    requires { SFits w64 (a *ℤ b) }
    ensures { result ≡ a *ℤ b }
{
    a * b
}

pub fn signed(n: u64) -> i64
    requires { n ≤ 281474976710656 }
    ensures { result ≡ pos n }
{
    n as i64
}

// The magnitude is over 2^53.
pub fn is_over(z: i64) -> bool
    ensures { result ≡ over z }
{
    if z > 9007199254740992 {
        return true;
    }
    z < -9007199254740992
}

pub fn float_of(z: i64) -> f64
    requires { over z ≡ false }
    ensures { result ≡ of_int binary64 z }
{
    z as f64
}
