// An orthonormal basis of a matrix's columns by modified Gram-Schmidt (document 000's `qr_q`).
#![tactic(auto)]

ghost use Rattle.std.specs.Prelude.{◌≡◌, ◌*◌, ◌<◌, ◌≤◌, length};
ghost use Rattle.answers.specs.Answers.{unless_bad};
ghost use Rattle.answers.specs.Refusals.{verdict};
ghost use Rattle.leaves.specs.Scan.{first_bad};
ghost use Rattle.qr_q.specs.QrQ.{column, columns, checks, qr_q};

use answers::checks::lengths;
use answers::refusal::Refusal;
use answers::{Answer, done, refuse};
use gram_schmidt::normalise::finish;
use gram_schmidt::{column_of, less_columns_twice, norm};
use grid::LARGEST;
use leaves::scan::first_bad;

fn column(m: usize, k: usize, j: usize, b: &mut [f64], c: &mut [f64], q: &mut [f64]) -> Answer
    requires { (j < k) × (length q.old ≡ m * k) × (length b.old ≡ m) × (length c.old ≡ m) }
    ensures { (result, q.new) ≡ column m k j q.old }
{
    column_of(m, k, q, j, c);
    less_columns_twice(m, k, j, q, b, c);
    finish(m, k, j, norm(c), c, q)
}

fn columns(m: usize, k: usize, b: &mut [f64], c: &mut [f64], q: &mut [f64]) -> Answer
    requires { (length q.old ≡ m * k) × (length b.old ≡ m) × (length c.old ≡ m) }
    ensures { (result, q.new) ≡ columns m k q.old k }
{
    let mut r = done(0);
    for j in 0..k {
        r = column(m, k, j, b, c, q);
        if r.answer != 0 {
            return r;
        }
    }
    r
}

fn checks(m: usize, k: usize, a: usize, x: usize) -> Result<(), Refusal>
    ensures { verdict result ≡ checks m k a x }
{
    if m > LARGEST || k > LARGEST {
        return Err(Refusal::Dimension);
    }
    lengths(&[(a, m * k), (x, m * k)])
}

// The columns of a, worked on in x with two columns of scratch.
fn run(m: usize, k: usize, a: &[f64], x: &mut [f64]) -> Answer
    requires { (m ≤ 256) × (length a.now ≡ m * k) × (length x.old ≡ m * k) }
    ensures { (result, x.new) ≡ columns m k a.now k }
{
    let mut b = [0.0f64; LARGEST];
    let mut c = [0.0f64; LARGEST];
    x.copy_from_slice(a);
    columns(m, k, &mut b[..m], &mut c[..m], x)
}

fn scanned(m: usize, k: usize, a: &[f64], x: &mut [f64]) -> Answer
    requires { (m ≤ 256) × (length a.now ≡ m * k) × (length x.old ≡ m * k) }
    ensures { (result, x.new) ≡ unless_bad (first_bad a.now) x.old (columns m k a.now k) }
{
    match first_bad(a) {
        None => run(m, k, a, x),
        Some(bad) => refuse(Refusal::NotFinite(bad.index).into(), x),
    }
}

pub fn qr_q(m: usize, k: usize, matrix: &[f64], answer: &mut [f64]) -> Answer
    ensures { (result, answer.new) ≡ qr_q m k matrix.now answer.old }
{
    match checks(m, k, matrix.len(), answer.len()) {
        Ok(()) => scanned(m, k, matrix, answer),
        Err(r) => r.into(),
    }
}
