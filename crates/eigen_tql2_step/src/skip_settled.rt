// The run over l of `tql2` one pass at a time: settled l are skipped.
ghost use Rattle.std.specs.Prelude.{◌≡◌, ◌+◌, ◌-◌, ◌<◌, ◌≤◌, ◌^◌, length};
ghost use Rattle.grid.specs.Real.{Vec};
ghost use Rattle.eigen_tql2_step.specs.SkipSettled.{skipped, found_l};
ghost use Rattle.eigen_tql2_step.specs.SkipSettledLaws.{onward};

use eigen_tql2::l_start_end::{begin, close};
use eigen_tql2_pass::{GOING, Run};

// The run goes on to the next l, unless it has ended.
pub fn onward(r: Run) -> Run
    requires { r.l + 1 < 2 ^ 64 }
    ensures { result ≡ onward r }
{
    if r.stop != GOING {
        return r;
    }
    Run {
        l: r.l + 1,
        passes: 0,
        ..r
    }
}

// Settled l are skipped.
fn skip(n: usize, first: Run, d: &mut [f64], e: &mut [f64]) -> Run
    requires { (n ≤ 256) × (first.l ≤ n) × (length d.old ≡ n) × (length e.old ≡ n) }
    ensures { (v : Vec) → (result, v, d.new, e.new) ≡ skipped n (n - first.l) (first, v, d.old, e.old) }
{
    let mut r = first;
    for l in first.l..n {
        let q = begin(n, l, r, d, e);
        if q.stop == GOING {
            return q;
        }
        r = onward(close(q, d, e));
    }
    r
}

// The l whose passes are to be run.
pub fn find(n: usize, r: Run, d: &mut [f64], e: &mut [f64]) -> Run
    requires { (n ≤ 256) × (r.l ≤ n) × (length d.old ≡ n) × (length e.old ≡ n) }
    ensures { (v : Vec) → (result, v, d.new, e.new) ≡ found_l n (r, v, d.old, e.old) }
{
    if r.passes == 0 { skip(n, r, d, e) } else { r }
}
