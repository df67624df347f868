// The matrix of `symmetric_eigen` comes in row by row, is worked on column by column, and its vectors go out row by row.
ghost use Rattle.std.specs.Prelude.{◌≡◌, ◌*◌, ◌<◌, length};
ghost use Rattle.leaves.specs.Scan.{by_rows};
ghost use Rattle.eigen_symmetric_eigen.specs.Layout.{columns};
ghost use Rattle.eigen_symmetric_eigen.specs.LayoutSteps.{copy_row, transpose_row};

use grid::{entry, put};

// Row i of the matrix a into row i of v.
fn copy_row(n: usize, i: usize, a: &[f64], v: &mut [f64])
    requires { (i < n) × (length a.now ≡ n * n) × (length v.old ≡ n * n) }
    ensures { v.new ≡ copy_row n a.now i v.old }
{
    for j in 0..n {
        put(v, n, n, i, j, entry(a, n, n, i, j));
    }
}

// The whole matrix, which stands row by row, into v, which stands column by column.
pub fn columns(n: usize, a: &[f64], v: &mut [f64])
    requires { (length a.now ≡ n * n) × (length v.old ≡ n * n) }
    ensures { v.new ≡ columns n a.now }
{
    for i in 0..n {
        copy_row(n, i, a, v);
    }
}

// The cells of row i left of the diagonal change places with their mirrors.
fn transpose_row(n: usize, i: usize, v: &mut [f64])
    requires { (i < n) × (length v.old ≡ n * n) }
    ensures { v.new ≡ transpose_row n i v.old }
{
    for j in 0..i {
        v.swap(j * n + i, i * n + j);
    }
}

// v, which stands column by column, comes to stand row by row.
pub fn rows(n: usize, v: &mut [f64])
    requires { length v.old ≡ n * n }
    ensures { v.new ≡ by_rows n v.old }
{
    for i in 0..n {
        transpose_row(n, i, v);
    }
}
