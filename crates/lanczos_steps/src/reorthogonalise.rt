// A vector against those before it and against v, twice: the reorthogonalising of document 000's Lanczos steps.
ghost use Rattle.std.specs.Prelude.{◌≡◌, ◌+◌, ◌*◌, ◌<◌, ◌≤◌, length};
ghost use Rattle.matvec.specs.Matvec.{row_of};
ghost use Rattle.lanczos_steps.specs.Reorthogonalise.{twice};
ghost use Rattle.lanczos_steps.specs.AgainstLaws.{against_all, passed};

use gram_schmidt::dot;
use matvec::{add, add_dot, lessen};

// Vector i of q.
pub fn row(n: usize, i: usize, q: &[f64]) -> &[f64]
    requires { i * n + n ≤ length q.now }
    ensures { (result.now ≡ row_of n i q.now) × (length result.now ≡ n) }
{
    let f = i * n;
    let e = f + n;
    &q[f..e]
}

// w against the first m vectors; what comes back is its dot with the next one. Each walk takes out a vector and sums the dot with the next.
fn past(n: usize, s: usize, m: usize, q: &[f64], w: &mut [f64]) -> f64
    requires { (m < s) × (length q.now ≡ s * n) × (length w.old ≡ n) }
    ensures { (result, w.new) ≡ passed n m q.now w.old }
{
    let mut p = dot(w, row(n, 0, q));
    for i in 0..m {
        p = add_dot(-p, row(n, i, q), w, row(n, i + 1, q));
    }
    p
}

// w against the vectors before step j, and against v.
fn against_all(n: usize, s: usize, j: usize, q: &[f64], v: &[f64], w: &mut [f64])
    requires { (j ≤ s) × (length q.now ≡ s * n) × (length v.now ≡ n) × (length w.old ≡ n) }
    ensures { w.new ≡ against_all n j q.now v.now w.old }
{
    if j == 0 {
        lessen(v, w);
        return;
    }
    let m = j - 1;
    let p = past(n, s, m, q, w);
    let r = add_dot(-p, row(n, m, q), w, v);
    add(-r, v, w);
}

// Twice: the second round takes what the first left.
pub fn twice(n: usize, s: usize, j: usize, q: &[f64], v: &[f64], w: &mut [f64])
    requires { (j ≤ s) × (length q.now ≡ s * n) × (length v.now ≡ n) × (length w.old ≡ n) }
    ensures { w.new ≡ twice n j q.now v.now w.old }
{
    for p in 0..2usize {
        against_all(n, s, j, q, v, w);
    }
}
