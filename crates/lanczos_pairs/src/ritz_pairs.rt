// The Ritz pairs of document 000's Lanczos: k values, then k rows of n numbers.
ghost use Rattle.std.specs.Prelude.{◌≡◌, ℕ, ◌+◌, ◌*◌, ◌<◌, ◌≤◌, length, get_or};
ghost use Rattle.svd_sort_svd_descending.specs.Rank.{Below};
ghost use Rattle.lanczos_pairs.specs.RitzPairs.{ritz, levelled, pair, pairs};

use gram_schmidt::normalise::over;
use gram_schmidt::{column_of, norm};
use grid::{EPSILON, LARGEST};
use matvec::weighted_rows::sum;

// The vector of the small problem's place c. by is scratch: its numbers in the vectors of q.
fn sum_of(
    n: usize,
    s: usize,
    m: usize,
    q: &[f64],
    vecs: &[f64],
    c: usize,
    by: &mut [f64],
    x: &mut [f64],
)
    requires { (n ≤ 256) × (m ≤ 256) × (m ≤ s) × (c < m) × (length q.now ≡ s * n) × (length vecs.now ≡ m * m) × (length by.old ≡ m) × (length x.old ≡ n) }
    ensures { x.new ≡ ritz n m q.now vecs.now c }
{
    column_of(m, m, vecs, c, by);
    sum(s, m, n, q, by, x);
}

fn ritz(n: usize, s: usize, m: usize, q: &[f64], vecs: &[f64], c: usize, x: &mut [f64])
    requires { (n ≤ 256) × (m ≤ 256) × (m ≤ s) × (c < m) × (length q.now ≡ s * n) × (length vecs.now ≡ m * m) × (length x.old ≡ n) }
    ensures { x.new ≡ ritz n m q.now vecs.now c }
{
    let mut by = [0.0f64; LARGEST];
    sum_of(n, s, m, q, vecs, c, &mut by[..m], x);
}

// c over its norm, where that is above EPSILON.
fn norm_out(c: &mut [f64])
    ensures { c.new ≡ levelled (length c.old) c.old }
{
    let by = norm(c);
    if by > EPSILON {
        over(by, c);
    }
}

// Value t, and row t behind the k values, are those of the small problem's place c. y is scratch.
fn pair(
    n: usize,
    s: usize,
    k: usize,
    m: usize,
    q: &[f64],
    vals: &[f64],
    vecs: &[f64],
    c: usize,
    t: usize,
    y: &mut [f64],
    x: &mut [f64],
)
    requires { (n ≤ 256) × (m ≤ 256) × (t < k) × (m ≤ s) × (c < m) × (length q.now ≡ s * n) × (length vals.now ≡ m) × (length vecs.now ≡ m * m) × (length y.old ≡ n) × (length x.old ≡ k + k * n) }
    ensures { x.new ≡ pair n k m q.now vals.now vecs.now c t x.old }
{
    x[t] = vals[c];
    ritz(n, s, m, q, vecs, c, y);
    norm_out(y);
    let f = k + t * n;
    let e = f + n;
    x[f..e].copy_from_slice(y);
}

pub fn pairs(
    n: usize,
    s: usize,
    k: usize,
    m: usize,
    found: usize,
    q: &[f64],
    vals: &[f64],
    vecs: &[f64],
    o: &[usize; LARGEST],
    y: &mut [f64],
    x: &mut [f64],
)
    requires { (n ≤ 256) × (found ≤ k) × (found ≤ m) × (m ≤ s) × (m ≤ 256) × Below m o.now × (length q.now ≡ s * n) × (length vals.now ≡ m) × (length vecs.now ≡ m * m) × (length y.old ≡ n) × (length x.old ≡ k + k * n) }
    ensures { x.new ≡ pairs n k m found q.now vals.now vecs.now (λ (t : ℕ). get_or o.now t 0) x.old }
{
    for t in 0..found {
        pair(n, s, k, m, q, vals, vecs, o[t], t, y, x);
    }
}
