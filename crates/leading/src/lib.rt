// The k greatest values of a `symmetric_eigen` result, descending, and a row of n for each: the layout that `lanczos` answers with.
#![tactic(auto)]

ghost use Rattle.std.specs.Prelude.{◌≡◌, ◌+◌, ◌-◌, ◌*◌, ◌≤◌, length};
ghost use Rattle.grid.specs.Real.{at};
ghost use Rattle.grid.specs.Table.{table, rows};
ghost use Rattle.answers.specs.Answers.{unless_bad};
ghost use Rattle.answers.specs.Refusals.{verdict};
ghost use Rattle.leaves.specs.Scan.{first_bad};
ghost use Rattle.gram_schmidt.specs.Gram.{column_of};
ghost use Rattle.leading.specs.Leading.{checks, leading};
ghost use Rattle.leading.specs.Result.{given};

use answers::checks::lengths;
use answers::refusal::Refusal;
use answers::{Answer, done, refuse};
use gram_schmidt::column_of;
use grid::LARGEST;
use leaves::scan::first_bad;

// The values from the last one back.
fn values(n: usize, k: usize, v: &[f64], x: &mut [f64])
    requires { (k ≤ n) × (n ≤ length v.now) × (length x.old ≡ k) }
    ensures { x.new ≡ table (λ t. at v.now (n - 1 - t)) k }
{
    x.copy_from_slice(&v[n - k..n]);
    x.reverse();
}

// The rows of x: the columns of v from the last one back.
fn vectors(n: usize, k: usize, v: &[f64], x: &mut [f64])
    requires { (k ≤ n) × (length v.now ≡ n * n) × (length x.old ≡ k * n) }
    ensures { x.new ≡ rows (λ t. column_of n n v.now (n - 1 - t)) k }
{
    for t in 0..k {
        let a = t * n;
        let e = a + n;
        column_of(n, n, v, n - 1 - t, &mut x[a..e]);
    }
}

fn run(n: usize, k: usize, v: &[f64], x: &mut [f64]) -> Answer
    requires { (k ≤ n) × (length v.now ≡ n + n * n) × (length x.old ≡ k + k * n) }
    ensures { (result, x.new) ≡ given n k v.now }
{
    let (first, rest) = x.split_at_mut(k);
    values(n, k, v, first);
    vectors(n, k, &v[n..], rest);
    done(0)
}

fn scanned(n: usize, k: usize, v: &[f64], x: &mut [f64]) -> Answer
    requires { (k ≤ n) × (length v.now ≡ n + n * n) × (length x.old ≡ k + k * n) }
    ensures { (result, x.new) ≡ unless_bad (first_bad v.now) x.old (given n k v.now) }
{
    match first_bad(v) {
        None => run(n, k, v, x),
        Some(bad) => refuse(Refusal::NotFinite(bad.index).into(), x),
    }
}

fn checks(n: usize, k: usize, v: usize, x: usize) -> Result<(), Refusal>
    ensures { verdict result ≡ checks n k v x }
{
    if n > LARGEST {
        return Err(Refusal::Dimension);
    }
    if k > n {
        return Err(Refusal::Pairs);
    }
    lengths(&[(v, n + n * n), (x, k + k * n)])
}

pub fn leading(n: usize, k: usize, res: &[f64], out: &mut [f64]) -> Answer
    ensures { (result, out.new) ≡ leading n k res.now out.old }
{
    match checks(n, k, res.len(), out.len()) {
        Ok(()) => scanned(n, k, res, out),
        Err(r) => r.into(),
    }
}
