// The run of `tql2` over l: QL passes at each, with mark 1 and a limit.
ghost use Rattle.std.specs.Prelude.{◌≡◌, ◌+◌, ◌<◌, ◌≤◌, ◌^◌};
ghost use Rattle.grid.specs.CellLaws.{Sized};
ghost use Rattle.eigen_tql2.specs.LStartEnd.{fresh};
ghost use Rattle.eigen_tql2.specs.RunOverLBounds.{Ready};
ghost use Rattle.eigen_tql2.specs.RunOverL.{iterated, turn, run};

use crate::l_start_end::{begin, close};
use eigen_tql2_pass::{GOING, Run, pass};

// At most limit passes at the run's l.
fn iterate(
    n: usize,
    limit: usize,
    edition: usize,
    first: Run,
    v: &mut [f64],
    d: &mut [f64],
    e: &mut [f64],
) -> Run
    requires { (limit ≤ 60) × Ready n first × Sized n v.old d.old e.old }
    ensures { (result, v.new, d.new, e.new) ≡ iterated n limit edition (first, v.old, d.old, e.old) }
{
    let mut r = first;
    for _ in 0..limit {
        if r.stop != GOING {
            return r;
        }
        r = pass(n, edition, r, v, d, e);
    }
    r
}

// The run at l, unless it has stopped before.
fn turn(
    n: usize,
    limit: usize,
    edition: usize,
    l: usize,
    r: Run,
    v: &mut [f64],
    d: &mut [f64],
    e: &mut [f64],
) -> Run
    requires { (l < n) × (limit ≤ 60) × (r.count + 60 < 2 ^ 64) × Sized n v.old d.old e.old }
    ensures { (result, v.new, d.new, e.new) ≡ turn n limit edition l (r, v.old, d.old, e.old) }
{
    if r.stop != GOING {
        return r;
    }
    let q = begin(n, l, r, d, e);
    let t = iterate(n, limit, edition, q, v, d, e);
    close(t, d, e)
}

// The run over all l.
pub fn run(
    n: usize,
    limit: usize,
    edition: usize,
    v: &mut [f64],
    d: &mut [f64],
    e: &mut [f64],
) -> Run
    requires { (n ≤ 256) × (limit ≤ 60) × Sized n v.old d.old e.old }
    ensures { (result, v.new, d.new, e.new) ≡ run n limit edition (fresh, v.old, d.old, e.old) }
{
    let mut r = Run::default();
    for l in 0..n {
        r = turn(n, limit, edition, l, r, v, d, e);
    }
    r
}
