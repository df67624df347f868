// How `tql2` ends: mark 2, the answer, and the sort.
ghost use Rattle.std.specs.Prelude.{◌≡◌, ◌*◌, ◌<◌, length};
ghost use Rattle.grid.specs.Real.{Vec};
ghost use Rattle.eigen_tql2.specs.Finish.{mark2, ql_finished};

use crate::sort::sort;
use answers::{Answer, answered, done};
use eigen_tql2_pass::{GOING, LIMIT_USED, Run};
use leaves::Bad;
use leaves::scan::{behind, first_bad, first_bad_cell};

// Mark 2.
fn mark2(n: usize, v: &[f64], d: &[f64]) -> Option<Bad>
    ensures { result ≡ mark2 n v.now d.now }
{
    match first_bad(d) {
        Some(bad) => Some(bad),
        None => behind(d.len(), first_bad_cell(n, v)),
    }
}

// The answer of a run, and the sort where it is done.
pub fn finish(n: usize, r: Run, v: &mut [f64], d: &mut [f64]) -> Answer
    requires { (0 < n) × (length v.old ≡ n * n) × (length d.old ≡ n) }
    ensures { (e : Vec) → (result, v.new, d.new, e) ≡ ql_finished n (r, v.old, d.old, e) }
{
    match r.stop {
        LIMIT_USED => answered(9, r.l, 0, r.count),
        GOING => match mark2(n, v, d) {
            Some(bad) => answered(bad.class, 2, bad.index, r.count),
            None => {
                sort(n, v, d);
                done(r.count)
            }
        },
        class => answered(class, 1, r.index, r.count),
    }
}
