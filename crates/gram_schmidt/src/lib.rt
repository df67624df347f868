// A column of a matrix against the columns before it, in two passes, and its norm: the Gram-Schmidt of document 000's `qr_q`.
#![tactic(auto)]

pub mod normalise; // A column over its norm, stored; or the refusal where that norm is not finite

ghost use Rattle.std.specs.Prelude.{◌≡◌, ◌*◌, ◌<◌, ◌≤◌, length};
ghost use Rattle.gram_schmidt.specs.Gram.{column_of, dot, lessened, less_columns, less_columns_twice, norm};

use grid::entry;
use root::root;

// Column j of q.
pub fn column_of(m: usize, k: usize, q: &[f64], j: usize, c: &mut [f64])
    requires { (j < k) × (length q.now ≡ m * k) × (length c.old ≡ m) }
    ensures { c.new ≡ column_of m k q.now j }
{
    for row in 0..m {
        c[row] = entry(q, m, k, row, j);
    }
}

pub fn dot(b: &[f64], c: &[f64]) -> f64
    requires { length b.now ≡ length c.now }
    ensures { result ≡ dot (length c.now) b.now c.now }
{
    let mut acc = 0.0;
    for (x, y) in b.iter().zip(c) {
        acc += x * y;
    }
    acc
}

fn lessen(proj: f64, b: &[f64], c: &mut [f64])
    requires { length b.now ≡ length c.old }
    ensures { c.new ≡ lessened (length c.old) proj b.now c.old }
{
    // By index: the invariant of a loop over `iter_mut().zip(b)` has no name for what is stored so far.
    for row in 0..c.len() {
        c[row] -= proj * b[row];
    }
}

// c against the columns of q before j, each of which is copied to the scratch b.
fn less_columns(m: usize, k: usize, j: usize, q: &[f64], b: &mut [f64], c: &mut [f64])
    requires { (j ≤ k) × (length q.now ≡ m * k) × (length b.old ≡ m) × (length c.old ≡ m) }
    ensures { c.new ≡ less_columns m k j q.now c.old }
{
    for i in 0..j {
        column_of(m, k, q, i, b);
        let proj = dot(b, c);
        lessen(proj, b, c);
    }
}

// Two passes: the second takes what the first left.
pub fn less_columns_twice(m: usize, k: usize, j: usize, q: &[f64], b: &mut [f64], c: &mut [f64])
    requires { (j ≤ k) × (length q.now ≡ m * k) × (length b.old ≡ m) × (length c.old ≡ m) }
    ensures { c.new ≡ less_columns_twice m k j q.now c.old }
{
    for p in 0..2usize {
        less_columns(m, k, j, q, b, c);
    }
}

pub fn norm(c: &[f64]) -> f64
    ensures { result ≡ norm (length c.now) c.now }
{
    root(dot(c, c))
}
