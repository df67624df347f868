// `symmetric_eigen`: the eigenvalues of a symmetric matrix, ascending, and their eigenvectors.
#![tactic(auto)]

pub mod layout; // The matrix of `symmetric_eigen` comes in row by row, is worked on column by column, and its vectors go out row by row
pub mod result; // What is handed back of an eigen run: the values before the vectors, or +0.0 throughout
pub mod after_tred2; // The run of `symmetric_eigen` after `tred2`: mark 0, then `tql2`

ghost use Rattle.std.specs.Prelude.{◌≡◌, ◌+◌, ◌*◌, ◌<◌, ◌≤◌, length};
ghost use Rattle.grid.specs.Real.{zeros};
ghost use Rattle.grid.specs.CellLaws.{Sized};
ghost use Rattle.answers.specs.Refusals.{verdict};
ghost use Rattle.eigen_symmetric_eigen.specs.SymmetricEigen.{decomposed, given, eigen_entered, checks, eigen};
ghost use Rattle.eigen_symmetric_eigen.specs.PartsLaws.{outward};

use crate::after_tred2::after_tred;
use crate::layout::{columns, rows};
use crate::result::give;
use answers::checks::{fitting_edition, limit_good};
use answers::refusal::Refusal;
use answers::{Answer, done};
use eigen_tred2::tred2;
use grid::{LARGEST, fill};
use leaves::scan::first_bad_lower;

// The run, with the vectors row by row where it is done.
fn decompose(
    n: usize,
    limit: usize,
    edition: usize,
    a: &[f64],
    v: &mut [f64],
    d: &mut [f64],
    e: &mut [f64],
) -> Answer
    requires { (0 < n) × (n ≤ 256) × (limit ≤ 60) × (length a.now ≡ n * n) × Sized n v.old d.old e.old }
    ensures { (result, v.new, d.new, e.new) ≡ outward n (decomposed n limit edition a.now (d.old, e.old)) }
{
    columns(n, a, v);
    tred2(n, v, d, e);
    let r = after_tred(n, limit, edition, v, d, e);
    if r.answer != 0 {
        return r;
    }
    rows(n, v);
    r
}

// The run with d in a local array, e in work and v in the part of the result behind the values.
fn run(
    n: usize,
    limit: usize,
    edition: usize,
    a: &[f64],
    work: &mut [f64],
    res: &mut [f64],
) -> Answer
    requires { (0 < n) × (n ≤ 256) × (limit ≤ 60) × (length a.now ≡ n * n) × (work.old ≡ zeros n) × (res.old ≡ zeros (n + n * n)) }
    ensures { (result, work.new, res.new) ≡ given n (decomposed n limit edition a.now (zeros n, zeros n)) }
{
    let mut d = [0.0f64; LARGEST];
    let r = decompose(n, limit, edition, a, &mut res[n..], &mut d[..n], work);
    give(r, &d[..n], work, res)
}

// The call after its checks of sizes, limit, edition and lengths.
fn enter(
    n: usize,
    limit: usize,
    edition: usize,
    matrix: &[f64],
    work: &mut [f64],
    res: &mut [f64],
) -> Answer
    requires { (n ≤ 256) × (limit ≤ 60) × (length matrix.now ≡ n * n) × (length work.old ≡ n) × (length res.old ≡ n + n * n) }
    ensures { (result, work.new, res.new) ≡ eigen_entered n limit edition matrix.now }
{
    fill(work);
    fill(res);
    match first_bad_lower(n, matrix) {
        Some(bad) => Refusal::NotFinite(bad.index).into(),
        None if n == 0 => done(0),
        None => run(n, limit, edition, matrix, work, res),
    }
}

// What a call is refused for before its run: its dimension, its limit, its edition, then the lengths of its arrays.
pub fn checks(
    n: usize,
    limit: usize,
    edition: usize,
    matrix: usize,
    work: usize,
    res: usize,
) -> Result<(), Refusal>
    ensures { verdict result ≡ checks n limit edition matrix work res }
{
    if n > LARGEST {
        return Err(Refusal::Dimension);
    }
    if !limit_good(limit) {
        return Err(Refusal::Limit);
    }
    fitting_edition(edition, matrix, n * n, work, n, res, n + n * n)
}

pub fn symmetric_eigen(
    n: usize,
    limit: usize,
    edition: usize,
    matrix: &[f64],
    work: &mut [f64],
    res: &mut [f64],
) -> Answer
    ensures { (result, work.new, res.new) ≡ eigen n limit edition matrix.now work.old res.old }
{
    match checks(n, limit, edition, matrix.len(), work.len(), res.len()) {
        Ok(()) => enter(n, limit, edition, matrix, work, res),
        Err(r) => r.into(),
    }
}
