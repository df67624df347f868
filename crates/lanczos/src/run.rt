// The Lanczos run from a given start vector: document 000's `top_eigenpairs_lanczos`.
//
// Where things stand: the Lanczos vectors are the first s * n numbers of work, row by row, and the small matrix the m * m behind them, m the
// number of steps; first it holds the tridiagonal matrix and then its vectors. All else is in local arrays of 256.
ghost use Rattle.std.specs.Prelude.{◌≡◌, ◌+◌, ◌*◌, ◌<◌, ◌≤◌, length, take};
ghost use Rattle.grid.specs.Real.{zeros};
ghost use Rattle.grid.specs.Table.{part};
ghost use Rattle.lanczos_steps.specs.StartVector.{started};
ghost use Rattle.lanczos_steps.specs.Krylov.{steps};
ghost use Rattle.lanczos_steps.specs.KrylovLaws.{Both};
ghost use Rattle.lanczos_pairs.specs.LeadingPairs.{selected};
ghost use Rattle.lanczos_pairs.specs.TridiagonalEigen.{inward};
ghost use Rattle.lanczos.specs.FitsLaws.{Fit, Room, Small};
ghost use Rattle.lanczos.specs.Checks.{size};
ghost use Rattle.lanczos.specs.Run.{paired, solved, ran};

use crate::checks::size;
use crate::settings::Settings;
use answers::{Answer, answered};
use gram_schmidt::norm;
use grid::LARGEST;
use lanczos_pairs::leading_pairs::select;
use lanczos_pairs::tridiagonal_eigen::small;
use lanczos_steps::start_vector::first;
use lanczos_steps::{Tridiagonal, steps};
use leaves::{class_of, is_finite};

// ---- the small problem and the pairs

// The pairs from the parts of work: the vectors, and behind them those of the small problem.
fn choose(
    n: usize,
    s: usize,
    k: usize,
    m: usize,
    count: usize,
    work: &[f64],
    vals: &[f64],
    x: &mut [f64],
) -> Answer
    requires { (n ≤ 256) × (m ≤ s) × (m ≤ 256) × (s * n + m * m ≤ length work.now) × (length vals.now ≡ m) × (length x.old ≡ k + k * n) }
    ensures { (result, x.new) ≡ selected n k m count (take (s * n) work.now) vals.now (part (s * n) (s * n + m * m) work.now) x.old }
{
    let f = s * n;
    let g = f + m * m;
    select(n, s, k, m, count, &work[..f], vals, &work[f..g], x)
}

// The small problem in the part of work behind the vectors, and the pairs. d and e are lent as zeros.
fn solve(
    n: usize,
    s: usize,
    k: usize,
    m: usize,
    how: Settings,
    t: &Tridiagonal,
    d: &mut [f64],
    e: &mut [f64],
    work: &mut [f64],
    x: &mut [f64],
) -> Answer
    requires { Small n s m (length work.old) × (part (s * n) (s * n + m * m) work.old ≡ zeros (m * m)) × (d.old ≡ zeros m) × (e.old ≡ zeros m) × (x.old ≡ zeros (k + k * n)) × Both t.now.alphas t.now.betas }
    ensures { (result, x.new) ≡ paired n k m (take (s * n) work.old) (inward m how.limit how.edition t.now.alphas t.now.betas) }
{
    let f = s * n;
    let g = f + m * m;
    let r = small(m, how.limit, how.edition, t, &mut work[f..g], d, e);
    if r.answer != 0 {
        return r;
    }
    choose(n, s, k, m, r.count, work, d, x)
}

fn solve_local(
    n: usize,
    s: usize,
    k: usize,
    m: usize,
    how: Settings,
    t: &Tridiagonal,
    work: &mut [f64],
    x: &mut [f64],
) -> Answer
    requires { Small n s m (length work.old) × (part (s * n) (s * n + m * m) work.old ≡ zeros (m * m)) × (x.old ≡ zeros (k + k * n)) × Both t.now.alphas t.now.betas }
    ensures { (result, x.new) ≡ paired n k m (take (s * n) work.old) (inward m how.limit how.edition t.now.alphas t.now.betas) }
{
    let mut d = [0.0f64; LARGEST];
    let mut e = [0.0f64; LARGEST];
    solve(n, s, k, m, how, t, &mut d[..m], &mut e[..m], work, x)
}

// ---- the run

// The steps from the vector v, in the front of work, and the rest. w is scratch.
fn go(
    n: usize,
    s: usize,
    k: usize,
    how: Settings,
    a: &[f64],
    v: &mut [f64],
    w: &mut [f64],
    work: &mut [f64],
    x: &mut [f64],
) -> Answer
    requires { (0 < s) × Room n s (length work.old) × (length a.now ≡ n * n) × (length v.old ≡ n) × (length w.old ≡ n) × (work.old ≡ zeros (length work.old)) × (x.old ≡ zeros (k + k * n)) }
    ensures { (result, x.new) ≡ solved n k how.limit how.edition (steps n s a.now (zeros (s * n)) (zeros 256) (zeros 256) v.old) }
{
    let mut t = Tridiagonal {
        alphas: [0.0; LARGEST],
        betas: [0.0; LARGEST],
    };
    let f = s * n;
    match steps(n, s, a, &mut work[..f], &mut t, v, w) {
        Ok((m, _)) => solve_local(n, s, k, m, how, &t, work, x),
        Err(r) => r,
    }
}

// From the start vector b, whose norm is `by`.
fn begin(
    n: usize,
    s: usize,
    k: usize,
    how: Settings,
    a: &[f64],
    by: f64,
    b: &[f64],
    v: &mut [f64],
    w: &mut [f64],
    work: &mut [f64],
    x: &mut [f64],
) -> Answer
    requires { (0 < s) × Room n s (length work.old) × (length a.now ≡ n * n) × (length b.now ≡ n) × (length v.old ≡ n) × (length w.old ≡ n) × (work.old ≡ zeros (length work.old)) × (x.old ≡ zeros (k + k * n)) }
    ensures { (result, x.new) ≡ solved n k how.limit how.edition (steps n s a.now (zeros (s * n)) (zeros 256) (zeros 256) (started n by b.now)) }
{
    first(by, b, v);
    go(n, s, k, how, a, v, w, work, x)
}

// From the start vector b.
pub fn run(
    n: usize,
    k: usize,
    how: Settings,
    a: &[f64],
    b: &[f64],
    work: &mut [f64],
    x: &mut [f64],
) -> Answer
    requires { Fit n k × (length a.now ≡ n * n) × (length b.now ≡ n) × (size n k * n + size n k * size n k ≤ length work.old) × (work.old ≡ zeros (length work.old)) × (x.old ≡ zeros (k + k * n)) }
    ensures { (result, x.new) ≡ ran n k how.limit how.edition a.now b.now }
{
    let by = norm(b);
    if !is_finite(by) {
        return answered(class_of(by), 3, 0, 0);
    }
    let s = size(n, k);
    let mut v = [0.0f64; LARGEST];
    let mut w = [0.0f64; LARGEST];
    begin(n, s, k, how, a, by, b, &mut v[..n], &mut w[..n], work, x)
}
