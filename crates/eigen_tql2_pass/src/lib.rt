// One QL pass of `tql2`: the QL transformation, mark 1 and the convergence test.
#![tactic(auto)]

pub mod ql_transformation; // The QL transformation of one pass of `tql2` (EISPACK's, with the implicit shift), with the hypot of an edition, over the diagonal d, the subdiagonal e and the vectors v

ghost use Rattle.std.specs.Prelude.{◌≡◌, ◌+◌, ◌*◌, ◌<◌, ◌^◌, length};
ghost use Rattle.grid.specs.CellLaws.{Sized};
ghost use Rattle.eigen_tql2_pass.specs.Pass.{tiny, mark1, verdict, for_reason, pass};

use crate::ql_transformation::transform;
use grid::EPSILON;
use leaves::scan::first_bad_of_both;
use leaves::{Bad, magnitude};

// Why the passes at an l stop, in a run's stop: not at all; l has settled; the limit is used up. Else it is the class of the
// number that mark 1 saw. They are numbers, not an enum, since C reads them in a Run.
pub const GOING: usize = 0;

pub const CONVERGED: usize = 1;

pub const LIMIT_USED: usize = 9;

// A run of `tql2` at l. stop is GOING while passes are to be run at l, CONVERGED where l has settled, 8 or 10 where a number
// is not finite, which index tells, LIMIT_USED where the limit is used up. The default is a run before its first l.
#[repr(C)]
#[derive(Clone, Copy, Default)]
pub struct Run {
    pub l: usize,
    pub m: usize,
    pub f: f64,
    pub tst1: f64,
    pub passes: usize,
    pub count: usize,
    pub stop: usize,
    pub index: usize,
}

// Mark 1.
pub fn mark1(d: &[f64], e: &[f64]) -> Option<Bad>
    ensures { result ≡ mark1 d.now e.now }
{
    first_bad_of_both(d, e)
}

// e[k] counts as zero: document 000's convergence test where k is l.
pub fn tiny(e: &[f64], tst1: f64, k: usize) -> bool
    requires { k < length e.now }
    ensures { result ≡ tiny e.now tst1 k }
{
    magnitude(e[k]) <= EPSILON * tst1
}

// After a pass: mark 1, then the convergence test, may stop the passes at l.
fn judged(r: Run, d: &[f64], e: &[f64]) -> Run
    requires { r.l < length e.now }
    ensures { result ≡ for_reason r (verdict r.l r.tst1 d.now e.now) }
{
    let (stop, index) = match mark1(d, e) {
        Some(bad) => (bad.class, bad.index),
        None if tiny(e, r.tst1, r.l) => (CONVERGED, 0),
        None => (GOING, 0),
    };
    Run { stop, index, ..r }
}

// One QL pass.
pub fn pass(n: usize, edition: usize, r: Run, v: &mut [f64], d: &mut [f64], e: &mut [f64]) -> Run
    requires { (r.l < r.m) × (r.m < n) × (r.passes + 1 < 2 ^ 64) × (r.count + 1 < 2 ^ 64) × Sized n v.old d.old e.old }
    ensures { (result, v.new, d.new, e.new) ≡ pass n edition (r, v.old, d.old, e.old) }
{
    let h = transform(n, edition, r.l, r.m, v, d, e);
    let q = Run {
        f: r.f + h,
        passes: r.passes + 1,
        count: r.count + 1,
        ..r
    };
    judged(q, d, e)
}
