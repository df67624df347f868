// What the marks of a run of one-sided Jacobi find in its values and factors, on the work array w of `sweep`.
ghost use Rattle.std.specs.Prelude.{◌≡◌};
ghost use Rattle.svd_jacobi_svd_tall.specs.SweepLengths.{Sized};
ghost use Rattle.svd_jacobi_svd_tall.specs.Marks.{factors_bad, all_bad};

use leaves::Bad;
use leaves::scan::{behind, first_bad, first_bad_cell};

// Mark 1: the first number of the factors that is not finite, row by row, u first.
pub fn factors_bad(rows: usize, cols: usize, w: &[f64]) -> Option<Bad>
    requires { Sized rows cols w.now }
    ensures { result ≡ factors_bad rows cols w.now }
{
    let v = rows * cols;
    match first_bad_cell(cols, &w[..v]) {
        Some(bad) => Some(bad),
        None => behind(v, first_bad_cell(cols, &w[v..v + cols * cols])),
    }
}

// Mark 2: the values, then the factors.
pub fn all_bad(rows: usize, cols: usize, w: &[f64]) -> Option<Bad>
    requires { Sized rows cols w.now }
    ensures { result ≡ all_bad rows cols w.now }
{
    let s = rows * cols + cols * cols;
    match first_bad(&w[s..s + cols]) {
        Some(bad) => Some(bad),
        None => behind(cols, factors_bad(rows, cols, w)),
    }
}
