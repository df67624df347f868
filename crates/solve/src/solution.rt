// The least-squares solution by the parts of a decomposition, operation for operation (document 000's `Svd::solve`).
ghost use Rattle.std.specs.Prelude.{◌≡◌, ◌*◌, ◌<◌, length};
ghost use Rattle.grid.specs.Real.{at, ◌⊕◌, ◌⊗◌};
ghost use Rattle.grid.specs.Cell.{entry};
ghost use Rattle.grid.specs.Table.{table};
ghost use Rattle.solve.specs.Solution.{column_sum, coefficient};
ghost use Rattle.solve.specs.SolutionLaws.{solution_of};

use crate::decomposition::Parts;
use grid::{entry, fill};

// Row i of a, by a number, is added to acc.
fn add_row(rows: usize, cols: usize, a: &[f64], i: usize, by: f64, acc: &mut [f64])
    requires { (i < rows) × (length a.now ≡ rows * cols) × (length acc.old ≡ cols) }
    ensures { acc.new ≡ table (λ j. at acc.old j ⊕ entry a.now cols i j ⊗ by) cols }
{
    for j in 0..cols {
        acc[j] += entry(a, rows, cols, i, j) * by;
    }
}

// Each column of a by v. The sums are worked out side by side, so that the walk is along the rows.
fn column_sums(rows: usize, cols: usize, a: &[f64], v: &[f64], y: &mut [f64])
    requires { (length a.now ≡ rows * cols) × (length v.now ≡ rows) × (length y.old ≡ cols) }
    ensures { y.new ≡ table (column_sum rows cols a.now v.now) cols }
{
    fill(y);
    for i in 0..rows {
        add_row(rows, cols, a, i, v[i], y);
    }
}

// acc over the value sv. One that is not above the tolerance counts as zero.
pub fn coefficient(tolerance: f64, sv: f64, acc: f64) -> f64
    ensures { result ≡ coefficient tolerance sv acc }
{
    if sv > tolerance { acc / sv } else { 0.0 }
}

fn coefficients(r: usize, tolerance: f64, s: &[f64], c: &mut [f64])
    requires { (length s.now ≡ r) × (length c.old ≡ r) }
    ensures { c.new ≡ table (λ k. coefficient tolerance (at s.now k) (at c.old k)) r }
{
    for k in 0..r {
        c[k] = coefficient(tolerance, s[k], c[k]);
    }
}

// x = V * c with c = sigma^+ * U^T * b. The scratch c has room for r numbers.
pub fn solution(p: Parts, tolerance: f64, b: &[f64], c: &mut [f64], x: &mut [f64])
    requires { (length b.now ≡ p.m) × (length c.old ≡ p.r) × (length x.old ≡ p.n) }
    ensures { x.new ≡ solution_of p.entry.m p.entry.r p.entry.n tolerance p.entry.s.now p.entry.u.now p.entry.vt.now b.now }
{
    column_sums(p.m, p.r, p.u, b, c);
    coefficients(p.r, tolerance, p.s, c);
    column_sums(p.r, p.n, p.vt, c, x);
}
