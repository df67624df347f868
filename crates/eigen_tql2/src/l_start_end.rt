// How a run of `tql2` comes to an l, and how it leaves it.
ghost use Rattle.std.specs.Prelude.{◌≡◌, ◌<◌, length};
ghost use Rattle.grid.specs.Real.{Vec};
ghost use Rattle.eigen_tql2.specs.LStartEnd.{split, opened, stopping, closed};

use eigen_tql2_pass::{CONVERGED, GOING, LIMIT_USED, Run, tiny};
use leaves::{larger, magnitude};

// The m to split on.
fn split(n: usize, l: usize, tst1: f64, e: &[f64]) -> usize
    requires { (l < n) × (length e.now ≡ n) }
    ensures { result ≡ split n l tst1 e.now }
{
    for m in l..n - 1 {
        if tiny(e, tst1, m) {
            return m;
        }
    }
    n - 1
}

// The run comes to l.
pub fn begin(n: usize, l: usize, r: Run, d: &[f64], e: &[f64]) -> Run
    requires { (l < n) × (length d.now ≡ n) × (length e.now ≡ n) }
    ensures { result ≡ opened n l r d.now e.now }
{
    let tst1 = larger(r.tst1, magnitude(d[l]) + magnitude(e[l]));
    let m = split(n, l, tst1, e);
    Run {
        l,
        m,
        tst1,
        passes: 0,
        stop: if l < m { GOING } else { CONVERGED },
        index: 0,
        ..r
    }
}

// What the passes at l came to.
pub fn close(r: Run, d: &mut [f64], e: &mut [f64]) -> Run
    requires { (r.l < length d.old) × (r.l < length e.old) }
    ensures { (v : Vec) → (result, v, d.new, e.new) ≡ closed (r, v, d.old, e.old) }
{
    match r.stop {
        CONVERGED => {
            d[r.l] += r.f;
            e[r.l] = 0.0;
            stopping(r, GOING)
        }
        GOING => stopping(r, LIMIT_USED),
        _ => r,
    }
}

// r with another reason to stop, which is no mark.
pub fn stopping(r: Run, stop: usize) -> Run
    ensures { result ≡ stopping r stop }
{
    Run {
        stop,
        index: 0,
        ..r
    }
}
