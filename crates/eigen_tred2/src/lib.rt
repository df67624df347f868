// The transformations of the reduction accumulated, and document 000's tred2 as a whole.
#![tactic(auto)]

mod householder; // The Householder vector of one step of document 000's tred2, operation for operation
mod column_pairs; // Two columns of the similarity transformation (`similarity`) side by side in one walk: each sum has its own order, and each element of e takes the share of the first column before that of the second
mod similarity; // The similarity transformation of one step of tred2's reduction, by pairs of columns
mod reduction; // The reduction to tridiagonal form, operation for operation
mod turn_columns; // The columns that one transformation of tred2's accumulation turns

ghost use Rattle.std.specs.Prelude.{◌≡◌, ◌+◌, ◌*◌, ◌<◌, length};
ghost use Rattle.grid.specs.CellLaws.{Sized};
ghost use Rattle.eigen_tred2_definition.specs.Tred2.{clear_column, apply, accumulate, accumulation, copy_last, move_last, tred2};

use crate::reduction::reduction;
use crate::turn_columns::{column_over, turn_columns};
use grid::{at, put};

fn clear_column(n: usize, m: usize, v: &mut [f64])
    requires { (m < n) × (length v.old ≡ n * n) }
    ensures { v.new ≡ clear_column n m v.old }
{
    for k in 0..m {
        put(v, n, n, k, m, 0.0);
    }
}

fn apply(n: usize, m: usize, h: f64, v: &mut [f64], d: &mut [f64])
    requires { (m < n) × (length v.old ≡ n * n) × (length d.old ≡ n) }
    ensures { (v.new, d.new) ≡ apply n m h (v.old, d.old) }
{
    if h != 0.0 {
        column_over(n, m, h, v, d);
        turn_columns(n, m, v, d);
    }
}

fn accumulate(n: usize, i: usize, v: &mut [f64], d: &mut [f64])
    requires { (i + 1 < n) × (length v.old ≡ n * n) × (length d.old ≡ n) }
    ensures { (v.new, d.new) ≡ accumulate n i (v.old, d.old) }
{
    put(v, n, n, n - 1, i, at(v, n, n, i, i));
    put(v, n, n, i, i, 1.0);
    apply(n, i + 1, d[i + 1], v, d);
    clear_column(n, i + 1, v);
}

fn accumulation(n: usize, v: &mut [f64], d: &mut [f64])
    requires { (0 < n) × (length v.old ≡ n * n) × (length d.old ≡ n) }
    ensures { (v.new, d.new) ≡ accumulation n (v.old, d.old) }
{
    for i in 0..n - 1 {
        accumulate(n, i, v, d);
    }
}

fn copy_last(n: usize, v: &[f64], d: &mut [f64])
    requires { (0 < n) × (length v.now ≡ n * n) × (length d.old ≡ n) }
    ensures { d.new ≡ copy_last n v.now d.old }
{
    for j in 0..n {
        d[j] = at(v, n, n, n - 1, j);
    }
}

fn move_last(n: usize, v: &mut [f64], d: &mut [f64])
    requires { (0 < n) × (length v.old ≡ n * n) × (length d.old ≡ n) }
    ensures { (v.new, d.new) ≡ move_last n (v.old, d.old) }
{
    for j in 0..n {
        d[j] = at(v, n, n, n - 1, j);
        put(v, n, n, n - 1, j, 0.0);
    }
}

// v becomes the orthogonal transformation, d the diagonal of the tridiagonal matrix, e what stands
// beside it, from index 1 on.
pub fn tred2(n: usize, v: &mut [f64], d: &mut [f64], e: &mut [f64])
    requires { (0 < n) × Sized n v.old d.old e.old }
    ensures { (v.new, d.new, e.new) ≡ tred2 n (v.old, d.old, e.old) }
{
    copy_last(n, v, d);
    reduction(n, v, d, e);
    accumulation(n, v, d);
    move_last(n, v, d);
    put(v, n, n, n - 1, n - 1, 1.0);
    e[0] = 0.0;
}
