// `tql2` (EISPACK's): the eigenvalues and eigenvectors of a tridiagonal matrix by QL passes, with marks and a limit.
#![tactic(auto)]

pub mod sort; // The sort at the end of `tql2`: the values ascending, each column with its value
pub mod l_start_end; // How a run of `tql2` comes to an l, and how it leaves it
mod run_over_l; // The run of `tql2` over l: QL passes at each, with mark 1 and a limit
pub mod finish; // How `tql2` ends: mark 2, the answer, and the sort

ghost use Rattle.std.specs.Prelude.{◌≡◌, ◌<◌, ◌≤◌, length};
ghost use Rattle.grid.specs.CellLaws.{Sized};
ghost use Rattle.eigen_tql2.specs.Tql2.{moved_up, tql2};

use crate::run_over_l::run;
use answers::Answer;

// The subdiagonal moves one place towards the start, and its last is 0.
pub fn move_up(n: usize, e: &mut [f64])
    requires { (0 < n) × (length e.old ≡ n) }
    ensures { e.new ≡ moved_up n e.old }
{
    e.copy_within(1.., 0);
    e[n - 1] = 0.0;
}

pub fn tql2(
    n: usize,
    limit: usize,
    edition: usize,
    v: &mut [f64],
    d: &mut [f64],
    e: &mut [f64],
) -> Answer
    requires { (0 < n) × (n ≤ 256) × (limit ≤ 60) × Sized n v.old d.old e.old }
    ensures { (result, v.new, d.new, e.new) ≡ tql2 n limit edition (v.old, d.old, e.old) }
{
    move_up(n, e);
    let r = run(n, limit, edition, v, d, e);
    crate::finish::finish(n, r, v, d)
}
