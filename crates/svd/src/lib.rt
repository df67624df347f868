// The svd of a matrix: the checks, the work array, the sweeps and the sorted result.
#![tactic(auto)]

pub mod vt_row; // Row j of V^T in an svd result: the part that it is, and the same part by its numbers

ghost use Rattle.std.specs.Prelude.{◌≡◌, cond, ◌+◌, ◌*◌, ◌≤◌, ◌<◌, eqb, length};
ghost use Rattle.answers.specs.Answers.{least};
ghost use Rattle.answers.specs.Refusals.{verdict};
ghost use Rattle.svd_jacobi_svd_tall.specs.SweepLengths.{Sized};
ghost use Rattle.svd_sort_svd_descending.specs.Result.{longest, work_length, sorted_out};
ghost use Rattle.svd.specs.Svd.{source, checks, svd};
ghost use Rattle.svd.specs.LoadedLaws.{column_loaded, matrix_loaded, eyed, ran_in};
ghost use Rattle.svd_sort_svd_descending.specs.ResultSizes.{Checked};

use answers::checks::{lengths, limit_good};
use answers::refusal::Refusal;
use answers::{Answer, decomposition_length, least};
use grid::{LARGEST, entry, fill};
use leaves::scan::first_bad;
use svd_jacobi_svd_tall::jacobi;
use svd_sort_svd_descending::{longest, sorted_out};

fn work_length(m: usize, n: usize) -> usize
    requires { (m ≤ 256) × (n ≤ 256) }
    ensures { result ≡ work_length m n }
{
    let r = least(m, n);
    longest(m, n) * r + r * r + r
}

// Refusals 1, 2 and 6, for arrays of a, b and c numbers. The flags are numbers here and below, as C gives them: 0 is no.
fn checks(
    m: usize,
    n: usize,
    want_u: usize,
    want_vt: usize,
    limit: usize,
    a: usize,
    b: usize,
    c: usize,
) -> Result<(), Refusal>
    ensures { verdict result ≡ checks m n want_u want_vt limit a b c }
{
    if m > LARGEST || n > LARGEST {
        return Err(Refusal::Dimension);
    }
    if !limit_good(limit) {
        return Err(Refusal::Limit);
    }
    let result = decomposition_length(m, n, want_u, want_vt);
    lengths(&[(a, m * n), (b, work_length(m, n)), (c, result)])
}

// Row i, column j of the matrix, or of its transpose where m < n.
fn source(m: usize, n: usize, a: &[f64], i: usize, j: usize) -> f64
    requires { (i < longest m n) × (j < least m n) × (length a.now ≡ m * n) }
    ensures { result ≡ source m n a.now i j }
{
    if m < n {
        entry(a, m, n, j, i)
    } else {
        entry(a, m, n, i, j)
    }
}

fn load_column(m: usize, n: usize, rows: usize, a: &[f64], j: usize, w: &mut [f64])
    requires { (rows ≡ longest m n) × (j < least m n) × (length a.now ≡ m * n) × (j * rows + rows ≤ length w.old) }
    ensures { w.new ≡ column_loaded m n rows a.now j w.old }
{
    for i in 0..rows {
        w[j * rows + i] = source(m, n, a, i, j);
    }
}

fn load_matrix(m: usize, n: usize, rows: usize, cols: usize, a: &[f64], w: &mut [f64])
    requires { (rows ≡ longest m n) × (cols ≡ least m n) × (length a.now ≡ m * n) × Sized rows cols w.old }
    ensures { w.new ≡ matrix_loaded m n rows cols a.now w.old }
{
    for j in 0..cols {
        load_column(m, n, rows, a, j, w);
    }
}

// The rotations start as the identity.
fn load_eye(rows: usize, cols: usize, w: &mut [f64])
    requires { Sized rows cols w.old }
    ensures { w.new ≡ eyed rows cols w.old }
{
    for j in 0..cols {
        w[rows * cols + j * cols + j] = 1.0;
    }
}

fn hand_over(
    answer: usize,
    m: usize,
    n: usize,
    want_u: usize,
    want_vt: usize,
    w: &[f64],
    res: &mut [f64],
)
    requires { Checked m n want_u want_vt w.now res.old }
    ensures { res.new ≡ cond (eqb answer 0) (sorted_out m n want_u want_vt w.now) res.old }
{
    if answer == 0 {
        sorted_out(m, n, want_u, want_vt, w, res);
    }
}

// The run, over a work array that is all +0.0 before it.
fn run(
    m: usize,
    n: usize,
    want_u: usize,
    want_vt: usize,
    limit: usize,
    a: &[f64],
    w: &mut [f64],
    res: &mut [f64],
) -> Answer
    requires { (limit ≤ 60) × (length a.now ≡ m * n) × Checked m n want_u want_vt w.old res.old }
    ensures { (result, w.new, res.new) ≡ ran_in m n want_u want_vt limit a.now w.old res.old }
{
    let rows = longest(m, n);
    let cols = least(m, n);
    load_matrix(m, n, rows, cols, a, w);
    load_eye(rows, cols, w);
    let x = jacobi(rows, cols, limit, w);
    hand_over(x.answer, m, n, want_u, want_vt, w, res);
    fill(w);
    x
}

pub fn svd(
    m: usize,
    n: usize,
    want_u: usize,
    want_vt: usize,
    limit: usize,
    matrix: &[f64],
    work: &mut [f64],
    res: &mut [f64],
) -> Answer
    ensures { (result, work.new, res.new) ≡ svd m n want_u want_vt limit matrix.now work.old res.old }
{
    if let Err(r) = checks(
        m,
        n,
        want_u,
        want_vt,
        limit,
        matrix.len(),
        work.len(),
        res.len(),
    ) {
        return r.into();
    }
    fill(work);
    fill(res);
    if let Some(bad) = first_bad(matrix) {
        return Refusal::NotFinite(bad.index).into();
    }
    run(m, n, want_u, want_vt, limit, matrix, work, res)
}
