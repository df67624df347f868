// The run of `symmetric_eigen` after `tred2`: mark 0, then `tql2`.
ghost use Rattle.std.specs.Prelude.{◌≡◌, ◌<◌, ◌≤◌};
ghost use Rattle.grid.specs.CellLaws.{Sized};
ghost use Rattle.eigen_symmetric_eigen.specs.AfterTred2.{mark0, after_tred};

use answers::{Answer, answered};
use eigen_tql2::tql2;
use eigen_tql2_pass::mark1;
use leaves::Bad;
use leaves::scan::{behind, first_bad_cell};

// Mark 0.
pub fn mark0(n: usize, v: &[f64], d: &[f64], e: &[f64]) -> Option<Bad>
    ensures { result ≡ mark0 n v.now d.now e.now }
{
    match mark1(d, e) {
        Some(bad) => Some(bad),
        None => behind(d.len() + e.len(), first_bad_cell(n, v)),
    }
}

// The run after `tred2`.
pub fn after_tred(
    n: usize,
    limit: usize,
    edition: usize,
    v: &mut [f64],
    d: &mut [f64],
    e: &mut [f64],
) -> Answer
    requires { (0 < n) × (n ≤ 256) × (limit ≤ 60) × Sized n v.old d.old e.old }
    ensures { (result, v.new, d.new, e.new) ≡ after_tred n limit edition (v.old, d.old, e.old) }
{
    match mark0(n, v, d, e) {
        None => tql2(n, limit, edition, v, d, e),
        Some(bad) => answered(bad.class, 0, bad.index, 0),
    }
}
