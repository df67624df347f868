// The tridiagonal problem of document 000's Lanczos. Its matrix is symmetric, so that it stands the same by rows and by columns, and
// `symmetric_eigen` works on it in place: no second matrix is lent.
ghost use Rattle.std.specs.Prelude.{◌≡◌, ◌<◌, ◌≤◌};
ghost use Rattle.grid.specs.CellLaws.{Sized};
ghost use Rattle.lanczos_pairs.specs.TridiagonalMatrix.{tri};
ghost use Rattle.lanczos_pairs.specs.InPlaceLaws.{inner_of};

use crate::tridiagonal_matrix::tri;
use answers::Answer;
use eigen_symmetric_eigen::after_tred2::after_tred;
use eigen_symmetric_eigen::layout::rows;
use eigen_tred2::tred2;
use lanczos_steps::Tridiagonal;

// `symmetric_eigen` of the matrix t, in place: its values to d, and its vectors, row by row, to t.
fn inner(
    m: usize,
    limit: usize,
    edition: usize,
    t: &mut [f64],
    d: &mut [f64],
    e: &mut [f64],
) -> Answer
    requires { (0 < m) × (m ≤ 256) × (limit ≤ 60) × Sized m t.old d.old e.old }
    ensures { (result, t.new, d.new, e.new) ≡ inner_of m limit edition (t.old, d.old, e.old) }
{
    tred2(m, t, d, e);
    let r = after_tred(m, limit, edition, t, d, e);
    if r.answer == 0 {
        rows(m, t);
    }
    r
}

// The tridiagonal problem of m alphas and betas. t, d and e are lent as zeros.
pub fn small(
    m: usize,
    limit: usize,
    edition: usize,
    x: &Tridiagonal,
    t: &mut [f64],
    d: &mut [f64],
    e: &mut [f64],
) -> Answer
    requires { (0 < m) × (m ≤ 256) × (limit ≤ 60) × Sized m t.old d.old e.old }
    ensures { (result, t.new, d.new, e.new) ≡ inner_of m limit edition (tri m x.now.alphas x.now.betas t.old, d.old, e.old) }
{
    tri(m, x, t);
    inner(m, limit, edition, t, d, e)
}
