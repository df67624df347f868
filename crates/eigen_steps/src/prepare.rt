// A run of `symmetric_eigen` made ready for its first l.
ghost use Rattle.std.specs.Prelude.{◌≡◌, ◌*◌, ◌<◌, ◌≤◌, length};
ghost use Rattle.grid.specs.CellLaws.{Sized};
ghost use Rattle.eigen_steps.specs.ArraysLaws.{readied};

use eigen_symmetric_eigen::after_tred2::mark0;
use eigen_symmetric_eigen::layout::columns;
use eigen_tql2::move_up;
use eigen_tred2::tred2;
use leaves::Bad;

// `tred2` and mark 0; e is moved up where that saw nothing.
pub fn prepare(n: usize, a: &[f64], v: &mut [f64], d: &mut [f64], e: &mut [f64]) -> Option<Bad>
    requires { (0 < n) × (n ≤ 256) × (length a.now ≡ n * n) × Sized n v.old d.old e.old }
    ensures { (result, v.new, d.new, e.new) ≡ readied n a.now (d.old, e.old) }
{
    columns(n, a, v);
    tred2(n, v, d, e);
    let found = mark0(n, v, d, e);
    if found.is_none() {
        move_up(n, e);
    }
    found
}
