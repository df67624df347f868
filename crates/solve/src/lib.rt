// The least-squares solution and the pseudo-inverse by a decomposition that `svd` made (document 000's
// `Svd::solve` and `Svd::pseudo_inverse`).
#![tactic(auto)]

mod decomposition; // A decomposition by its parts
mod solution; // The least-squares solution by the parts of a decomposition, operation for operation (document 000's `Svd::solve`)
mod pseudo_inverse_rows; // The pseudo-inverse by the parts of a decomposition, operation for operation (document 000's `Svd::pseudo_inverse`)

ghost use Rattle.std.specs.Prelude.{◌≡◌, ◌*◌, length};
ghost use Rattle.answers.specs.Answers.{done};
ghost use Rattle.answers.specs.Refusals.{verdict};
ghost use Rattle.solve.specs.Solution.{solution};
ghost use Rattle.solve.specs.PseudoInverse.{inverted};
ghost use Rattle.solve.specs.Solve.{parts, solve_checks, inverse_checks, looked, solve, pseudo_inverse};
ghost use Rattle.solve.specs.SolutionLaws.{Sized};

use crate::decomposition::parts_of;
use crate::pseudo_inverse_rows::inverted;
use crate::solution::solution;
use answers::checks::fitting;
use answers::refusal::Refusal;
use answers::{Answer, decomposition_length, done, marked, refuse};
use grid::LARGEST;
use leaves::scan::{first_bad, first_bad_of_both};

// Refusals 1, 3 and 4. The flags are numbers, as C gives them: 0 is no.
fn parts(m: usize, n: usize, has_u: usize, has_vt: usize) -> Result<(), Refusal>
    ensures { verdict result ≡ parts m n has_u has_vt (done 0) }
{
    if m > LARGEST || n > LARGEST {
        return Err(Refusal::Dimension);
    }
    if has_u == 0 {
        return Err(Refusal::NoU);
    }
    if has_vt == 0 {
        return Err(Refusal::NoVt);
    }
    Ok(())
}

fn solve_checks(
    m: usize,
    n: usize,
    has_u: usize,
    has_vt: usize,
    tolerance: f64,
    d: usize,
    b: usize,
    x: usize,
) -> Result<(), Refusal>
    ensures { verdict result ≡ solve_checks m n has_u has_vt tolerance d b x }
{
    parts(m, n, has_u, has_vt)?;
    if b != m {
        return Err(Refusal::RightSide);
    }
    let want = decomposition_length(m, n, has_u, has_vt);
    fitting(tolerance, d, want, x, n)
}

fn inverse_checks(
    m: usize,
    n: usize,
    has_u: usize,
    has_vt: usize,
    tolerance: f64,
    d: usize,
    x: usize,
) -> Result<(), Refusal>
    ensures { verdict result ≡ inverse_checks m n has_u has_vt tolerance d x }
{
    parts(m, n, has_u, has_vt)?;
    let want = decomposition_length(m, n, has_u, has_vt);
    fitting(tolerance, d, want, x, n * m)
}

// Mark 2 looks at the answer.
fn look(x: &mut [f64]) -> Answer
    ensures { (result, x.new) ≡ looked x.old }
{
    let bad = first_bad(x);
    if bad.is_some() {
        return refuse(marked(2, 0, bad), x);
    }
    done(0)
}

// Beside `inverse_looked`: one function with a closure for the line in which they differ would be no plainer.
fn solve_looked(m: usize, n: usize, tolerance: f64, d: &[f64], b: &[f64], x: &mut [f64]) -> Answer
    requires { Sized m n (length d.now) × (length b.now ≡ m) × (length x.old ≡ n) }
    ensures { (result, x.new) ≡ looked (solution m n tolerance d.now b.now) }
{
    let p = parts_of(m, n, d);
    let mut c = [0.0f64; LARGEST];
    solution(p, tolerance, b, &mut c[..p.r], x);
    look(x)
}

// The minimum-norm least-squares solution of A x = b.
pub fn solve(
    m: usize,
    n: usize,
    has_u: usize,
    has_vt: usize,
    tolerance: f64,
    decomposition: &[f64],
    right_side: &[f64],
    answer: &mut [f64],
) -> Answer
    ensures { (result, answer.new) ≡ solve m n has_u has_vt tolerance decomposition.now right_side.now answer.old }
{
    if let Err(r) = solve_checks(
        m,
        n,
        has_u,
        has_vt,
        tolerance,
        decomposition.len(),
        right_side.len(),
        answer.len(),
    ) {
        return r.into();
    }
    // The right side's indices count on behind those of the decomposition.
    if let Some(bad) = first_bad_of_both(decomposition, right_side) {
        return refuse(Refusal::NotFinite(bad.index).into(), answer);
    }
    solve_looked(m, n, tolerance, decomposition, right_side, answer)
}

fn inverse_looked(m: usize, n: usize, tolerance: f64, d: &[f64], x: &mut [f64]) -> Answer
    requires { Sized m n (length d.now) × (length x.old ≡ n * m) }
    ensures { (result, x.new) ≡ looked (inverted m n tolerance d.now) }
{
    let p = parts_of(m, n, d);
    let mut w = [0.0f64; LARGEST];
    inverted(p, tolerance, &mut w[..p.r], x);
    look(x)
}

// The Moore-Penrose pseudo-inverse, n by m.
pub fn pseudo_inverse(
    m: usize,
    n: usize,
    has_u: usize,
    has_vt: usize,
    tolerance: f64,
    decomposition: &[f64],
    answer: &mut [f64],
) -> Answer
    ensures { (result, answer.new) ≡ pseudo_inverse m n has_u has_vt tolerance decomposition.now answer.old }
{
    if let Err(r) = inverse_checks(
        m,
        n,
        has_u,
        has_vt,
        tolerance,
        decomposition.len(),
        answer.len(),
    ) {
        return r.into();
    }
    if let Some(bad) = first_bad(decomposition) {
        return refuse(Refusal::NotFinite(bad.index).into(), answer);
    }
    inverse_looked(m, n, tolerance, decomposition, answer)
}
