// What is refused of a run of `tql2` that is still going.
ghost use Rattle.std.specs.Prelude.{◌≡◌, ◌+◌, ◌*◌, ◌<◌, ◌≤◌, eqb, length};
ghost use Rattle.answers.specs.Refusals.{verdict};
ghost use Rattle.eigen_tql2_step.specs.Checks.{in_range, sound, checked};

use answers::checks::{edition_good, limit_good};
use answers::refusal::Refusal;
use eigen_tql2_pass::Run;
use grid::LARGEST;
use leaves::scan::first_bad;

// len is n + n * n, for any n.
fn result_fits(n: usize, len: usize) -> bool
    ensures { result ≡ eqb len (n + n * n) }
{
    n <= u32::MAX as usize && len == n + n * n
}

// Each number of a run still going is in range for its size.
fn in_range(n: usize, limit: usize, edition: usize, r: Run) -> bool
    ensures { result ≡ in_range n limit edition r }
{
    if n < 1
        || n > LARGEST
        || !limit_good(limit)
        || !edition_good(edition)
        || r.l > n
        || r.m >= n
        || r.passes >= limit
        || r.passes > r.count
        || r.count > r.l * limit + r.passes
        || r.index != 0
    {
        return false;
    }
    r.passes == 0 || r.l < r.m
}

// tst1 is neither NaN nor negative, the last e is zero, and d and e are finite from l on.
fn sound(n: usize, r: Run, work: &[f64], res: &[f64]) -> bool
    requires { (0 < n) × (r.l ≤ n) × (length work.now ≡ n) × (n ≤ length res.now) }
    ensures { result ≡ sound n r work.now res.now }
{
    0.0 <= r.tst1
        && work[n - 1] == 0.0
        && first_bad(&res[r.l..n]).is_none()
        && first_bad(&work[r.l..]).is_none()
}

// Refusal 6 or 13 of a run still going.
pub fn checked(
    n: usize,
    limit: usize,
    edition: usize,
    r: Run,
    work: &[f64],
    res: &[f64],
) -> Result<(), Refusal>
    ensures { verdict result ≡ checked n limit edition r work.now res.now }
{
    if work.len() != n {
        return Err(Refusal::Length(0));
    }
    if !result_fits(n, res.len()) {
        return Err(Refusal::Length(1));
    }
    if in_range(n, limit, edition, r) && sound(n, r, work, res) {
        Ok(())
    } else {
        Err(Refusal::Run)
    }
}
