// A matrix by a vector, and a multiple of one vector added to another: document 000's `matvec` and `scaled_add`, each sum from index 0
// at +0.0. Four rows go side by side, each in its own order, since a sum waits for itself.
#![tactic(auto)]

pub mod weighted_rows; // Rows of a matrix, each by a number, added up: sixteen columns of eight rows at a time, so that what is summed stays at hand
pub mod symmetric_product; // A matrix by a vector, where the matrix may be symmetric: then its rows are its columns, and the product is its rows added up (`weighted_rows`), each number of it in its own order

ghost use Rattle.std.specs.Prelude.{◌≡◌, ◌+◌, ◌*◌, ◌≤◌, length};
ghost use Rattle.grid.specs.Loop.{upto};
ghost use Rattle.matvec.specs.Matvec.{product, added, without};
ghost use Rattle.matvec.specs.Rows.{put_dot, added_dot};

use gram_schmidt::dot;
use grid::entry;

// N rows of the n by n matrix a, from row i on, by v.
fn rows<const N: usize>(n: usize, i: usize, a: &[f64], v: &[f64], w: &mut [f64])
    requires { (i + N ≤ n) × (length a.now ≡ n * n) × (length v.now ≡ n) × (length w.old ≡ n) }
    ensures { w.new ≡ upto (put_dot n a.now v.now) i (i + N) w.old }
{
    let mut acc = [0.0; N];
    for j in 0..n {
        for k in 0..N {
            acc[k] += entry(a, n, n, i + k, j) * v[j];
        }
    }
    w[i..i + N].copy_from_slice(&acc);
}

// The n by n matrix a by v, a dot for each row: by fours, and what is left one by one.
pub fn dots(n: usize, a: &[f64], v: &[f64], w: &mut [f64])
    requires { (n ≤ 256) × (length a.now ≡ n * n) × (length v.now ≡ n) × (length w.old ≡ n) }
    ensures { w.new ≡ product n a.now v.now }
{
    for q in 0..n / 4 {
        rows::<4>(n, q * 4, a, v, w);
    }
    for i in n / 4 * 4..n {
        rows::<1>(n, i, a, v, w);
    }
}

// w and f times u.
pub fn add(f: f64, u: &[f64], w: &mut [f64])
    requires { length u.now ≡ length w.old }
    ensures { w.new ≡ added (length w.old) f u.now w.old }
{
    // By index here and below: the invariant of a loop over `iter_mut().zip(u)` has no name for what is stored so far.
    for i in 0..w.len() {
        w[i] += f * u[i];
    }
}

// w and f times u; what comes back is the dot of that with t, in the same walk.
pub fn add_dot(f: f64, u: &[f64], w: &mut [f64], t: &[f64]) -> f64
    requires { (length u.now ≡ length w.old) × (length t.now ≡ length w.old) }
    ensures { (result, w.new) ≡ added_dot (length w.old) f u.now t.now w.old }
{
    let mut acc = 0.0;
    for i in 0..w.len() {
        let x = w[i] + f * u[i];
        w[i] = x;
        acc += x * t[i];
    }
    acc
}

// w less its part along u.
pub fn lessen(u: &[f64], w: &mut [f64])
    requires { length u.now ≡ length w.old }
    ensures { w.new ≡ without (length w.old) u.now w.old }
{
    let proj = dot(w, u);
    add(-proj, u, w);
}
