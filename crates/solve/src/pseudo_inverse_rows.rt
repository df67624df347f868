// The pseudo-inverse by the parts of a decomposition, operation for operation (document 000's `Svd::pseudo_inverse`).
ghost use Rattle.std.specs.Prelude.{◌≡◌, ◌*◌, ◌<◌, length};
ghost use Rattle.grid.specs.Table.{table, rows};
ghost use Rattle.solve.specs.PseudoInverse.{pinv_sum};
ghost use Rattle.solve.specs.PseudoInverseLaws.{product, dot};

use crate::decomposition::Parts;
use crate::solution::coefficient;
use grid::entry;

// Column j of V^T by the inverse values.
fn products(p: Parts, tolerance: f64, j: usize, w: &mut [f64])
    requires { (j < p.n) × (length w.old ≡ p.r) }
    ensures { w.new ≡ table (product p.entry.n tolerance p.entry.s.now p.entry.vt.now j) p.entry.r }
{
    for k in 0..p.r {
        w[k] = entry(p.vt, p.r, p.n, k, j) * coefficient(tolerance, p.s[k], 1.0);
    }
}

// w times row i of U.
fn dot(m: usize, r: usize, w: &[f64], u: &[f64], i: usize) -> f64
    requires { (i < m) × (length w.now ≡ r) × (length u.now ≡ m * r) }
    ensures { result ≡ dot r w.now u.now i }
{
    let mut acc = 0.0;
    for k in 0..r {
        acc += w[k] * entry(u, m, r, i, k);
    }
    acc
}

fn dots(m: usize, r: usize, w: &[f64], u: &[f64], x: &mut [f64])
    requires { (length w.now ≡ r) × (length u.now ≡ m * r) × (length x.old ≡ m) }
    ensures { x.new ≡ table (dot r w.now u.now) m }
{
    for i in 0..m {
        x[i] = dot(m, r, w, u, i);
    }
}

// Row j of the pseudo-inverse.
fn pinv_row(p: Parts, tolerance: f64, j: usize, w: &mut [f64], x: &mut [f64])
    requires { (j < p.n) × (length w.old ≡ p.r) × (length x.old ≡ p.m) }
    ensures { x.new ≡ table (pinv_sum p.entry.r p.entry.n tolerance p.entry.s.now p.entry.u.now p.entry.vt.now j) p.entry.m }
{
    products(p, tolerance, j, w);
    dots(p.m, p.r, w, p.u, x);
}

// A^+ = V * sigma^+ * U^T. The scratch w has room for r numbers. Rows by an index: `chunks_exact_mut` takes no length 0, which m may be.
pub fn inverted(p: Parts, tolerance: f64, w: &mut [f64], x: &mut [f64])
    requires { (length w.old ≡ p.r) × (length x.old ≡ p.n * p.m) }
    ensures { x.new ≡ rows (λ j. table (pinv_sum p.entry.r p.entry.n tolerance p.entry.s.now p.entry.u.now p.entry.vt.now j) p.entry.m) p.entry.n }
{
    for j in 0..p.n {
        let a = j * p.m;
        let e = a + p.m;
        pinv_row(p, tolerance, j, w, &mut x[a..e]);
    }
}
