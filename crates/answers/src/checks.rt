// The checks that several calls share.
ghost use Rattle.std.specs.Prelude.{◌≡◌};
ghost use Rattle.answers.specs.Refusals.{verdict};
ghost use Rattle.answers.specs.Checks.{limit_good, edition_good, tolerance_good, unequal, lengths_of, fitting, fitting_edition};

use crate::refusal::Refusal;

// A pass or sweep limit is 1 to 60. One function with the bound as an argument, for editions too, would be no plainer.
pub fn limit_good(limit: usize) -> bool
    ensures { result ≡ limit_good limit }
{
    (1 <= limit) & (limit <= 60)
}

// An edition of hypot is 1 or 2.
pub fn edition_good(edition: usize) -> bool
    ensures { result ≡ edition_good edition }
{
    (1 <= edition) & (edition <= 2)
}

// A tolerance is 0 or above. -0.0 equals 0; a NaN does not, and is not above it.
fn tolerance_good(tolerance: f64) -> bool
    ensures { result ≡ tolerance_good tolerance }
{
    tolerance >= 0.0
}

// The first length that is not the one wanted beside it.
fn unequal(pairs: &[(usize, usize)]) -> Option<usize>
    ensures { result ≡ unequal pairs.now }
{
    pairs.iter().position(|p| p.0 != p.1)
}

// Arrays, each by its length and the one wanted.
pub fn lengths(pairs: &[(usize, usize)]) -> Result<(), Refusal>
    ensures { verdict result ≡ lengths_of pairs.now }
{
    match unequal(pairs) {
        Some(array) => Err(Refusal::Length(array)),
        None => Ok(()),
    }
}

// A tolerance, then two arrays.
pub fn fitting(
    tolerance: f64,
    a: usize,
    want_a: usize,
    b: usize,
    want_b: usize,
) -> Result<(), Refusal>
    ensures { verdict result ≡ fitting tolerance a want_a b want_b }
{
    if !tolerance_good(tolerance) {
        return Err(Refusal::Tolerance);
    }
    lengths(&[(a, want_a), (b, want_b)])
}

// An edition, then three arrays.
pub fn fitting_edition(
    edition: usize,
    a: usize,
    want_a: usize,
    b: usize,
    want_b: usize,
    c: usize,
    want_c: usize,
) -> Result<(), Refusal>
    ensures { verdict result ≡ fitting_edition edition a want_a b want_b c want_c }
{
    if !edition_good(edition) {
        return Err(Refusal::Edition);
    }
    lengths(&[(a, want_a), (b, want_b), (c, want_c)])
}
