// The run over l of `tql2` one pass at a time: what a step does.
#![tactic(auto)]

pub mod checks; // What is refused of a run of `tql2` that is still going
mod skip_settled; // The run over l of `tql2` one pass at a time: settled l are skipped

ghost use Rattle.std.specs.Prelude.{◌≡◌, ◌+◌, ◌<◌, ◌≤◌, ◌^◌, length};
ghost use Rattle.grid.specs.Real.{Vec};
ghost use Rattle.grid.specs.CellLaws.{Sized};
ghost use Rattle.eigen_tql2_step.specs.Advance.{step};
ghost use Rattle.eigen_tql2_step.specs.SkipSettledLaws.{undecided, decided};
ghost use Rattle.eigen_tql2_step.specs.CheckLaws.{Open};

use crate::skip_settled::{find, onward};
use eigen_tql2::l_start_end::close;
use eigen_tql2_pass::{GOING, Run, pass};

// More passes are to be run at this l.
fn undecided(limit: usize, r: Run) -> bool
    ensures { result ≡ undecided limit r }
{
    r.stop == GOING && r.passes < limit
}

// After a pass: the run stays at this l, or goes on to the next, or has ended.
fn decide(limit: usize, r: Run, d: &mut [f64], e: &mut [f64]) -> Run
    requires { (r.l + 1 < 2 ^ 64) × (r.l < length d.old) × (r.l < length e.old) }
    ensures { (v : Vec) → (result, v, d.new, e.new) ≡ decided limit (r, v, d.old, e.old) }
{
    if undecided(limit, r) {
        r
    } else {
        onward(close(r, d, e))
    }
}

// Settled l are skipped, and one pass is run, none after the last l.
pub fn advance(
    n: usize,
    limit: usize,
    edition: usize,
    r: Run,
    v: &mut [f64],
    d: &mut [f64],
    e: &mut [f64],
) -> Run
    requires { (n ≤ 256) × (limit ≤ 60) × Open n limit r × Sized n v.old d.old e.old }
    ensures { (result, v.new, d.new, e.new) ≡ step n limit edition (r, v.old, d.old, e.old) }
{
    let q = find(n, r, d, e);
    if q.l < n {
        let t = pass(n, edition, q, v, d, e);
        return decide(limit, t, d, e);
    }
    q
}
