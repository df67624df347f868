// Which of the Ritz pairs are the leading ones, and the look at the answer.
ghost use Rattle.std.specs.Prelude.{◌≡◌, ◌+◌, ◌*◌, ◌≤◌, length};
ghost use Rattle.lanczos_pairs.specs.LeadingPairs.{looked, selected};

use crate::ritz_pairs::pairs;
use answers::{Answer, answered, least, refuse};
use grid::LARGEST;
use leaves::scan::first_bad;
use svd_sort_svd_descending::order::note;

// The whole answer is looked at.
fn look(found: usize, count: usize, x: &mut [f64]) -> Answer
    ensures { (result, x.new) ≡ looked found count x.old }
{
    match first_bad(x) {
        None => answered(0, found, 0, count),
        Some(bad) => refuse(answered(bad.class, 6, bad.index, count), x),
    }
}

// The pairs with the greatest values, in descending order.
pub fn select(
    n: usize,
    s: usize,
    k: usize,
    m: usize,
    count: usize,
    q: &[f64],
    vals: &[f64],
    vecs: &[f64],
    x: &mut [f64],
) -> Answer
    requires { (n ≤ 256) × (m ≤ s) × (m ≤ 256) × (length q.now ≡ s * n) × (length vals.now ≡ m) × (length vecs.now ≡ m * m) × (length x.old ≡ k + k * n) }
    ensures { (result, x.new) ≡ selected n k m count q.now vals.now vecs.now x.old }
{
    let mut o = [0usize; LARGEST];
    let mut y = [0.0f64; LARGEST];
    note(vals, 0, m, &mut o);
    let found = least(k, m);
    pairs(n, s, k, m, found, q, vals, vecs, &o, &mut y[..n], x);
    look(found, count, x)
}
