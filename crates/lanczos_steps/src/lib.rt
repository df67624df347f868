// The steps of document 000's Lanczos run: the vectors, the alphas and the betas.
#![tactic(auto)]

pub mod start_vector; // The first vector of a Lanczos run
mod reorthogonalise; // A vector against those before it and against v, twice: the reorthogonalising of document 000's Lanczos steps
pub mod step_end; // How a Lanczos step ends, by the norm of what is left

ghost use Rattle.std.specs.Prelude.{◌≡◌, ◌+◌, ◌*◌, ◌<◌, ◌≤◌, true, length, IfErr};
ghost use Rattle.matvec.specs.Symmetry.{Symmetric};
ghost use Rattle.lanczos_steps.specs.Krylov.{recurred, step, steps, outcome};
ghost use Rattle.lanczos_steps.specs.KrylovLaws.{kept, told};

use crate::reorthogonalise::{row, twice};
use crate::step_end::{Next, end};
use answers::{Answer, answered};
use gram_schmidt::{dot, norm};
use grid::LARGEST;
use leaves::{class_of, is_finite};
use matvec::add;
use matvec::symmetric_product::{is_symmetric, product};

// The tridiagonal matrix that the steps leave: the diagonal, and what stands beside it.
#[derive(Clone, Copy)]
pub struct Tridiagonal {
    pub alphas: [f64; LARGEST],
    pub betas: [f64; LARGEST],
}

// ---- one step

// A v, which is w, less alpha times v, and from step 1 on less the last beta times the last vector.
fn recur(
    n: usize,
    s: usize,
    j: usize,
    alpha: f64,
    q: &[f64],
    be: &[f64; LARGEST],
    v: &[f64],
    w: &mut [f64],
)
    requires { (j < s) × (s ≤ 256) × (length q.now ≡ s * n) × (length v.now ≡ n) × (length w.old ≡ n) }
    ensures { w.new ≡ recurred n j alpha q.now be.now v.now w.old }
{
    add(-alpha, v, w);
    if 0 < j {
        add(-be[j - 1], row(n, j - 1, q), w);
    }
}

// v is the next vector and alpha its number.
fn keep(
    n: usize,
    s: usize,
    j: usize,
    alpha: f64,
    w: &[f64],
    q: &mut [f64],
    t: &mut Tridiagonal,
    v: &mut [f64],
) -> Result<Next, Answer>
    requires { (j < s) × (s ≤ 256) × (length q.old ≡ s * n) × (length v.old ≡ n) × (length w.now ≡ n) }
    ensures { (result, q.new, t.new.alphas, t.new.betas, v.new) ≡ told (kept n j alpha w.now q.old t.old.alphas t.old.betas v.old) }
{
    let f = j * n;
    let e = f + n;
    q[f..e].copy_from_slice(v);
    t.alphas[j] = alpha;
    end(j, norm(w), w, &mut t.betas, v)
}

fn step(
    n: usize,
    s: usize,
    symmetric: bool,
    a: &[f64],
    j: usize,
    q: &mut [f64],
    t: &mut Tridiagonal,
    v: &mut [f64],
    w: &mut [f64],
) -> Result<Next, Answer>
    requires { (j < s) × (s ≤ 256) × (n ≤ 256) × (symmetric ≡ true → Symmetric n a.now) × (length a.now ≡ n * n) × (length q.old ≡ s * n) × (length v.old ≡ n) × (length w.old ≡ n) }
    ensures { (result, q.new, t.new.alphas, t.new.betas, v.new) ≡ told (step n a.now j q.old t.old.alphas t.old.betas v.old) }
{
    product(n, symmetric, a, v, w);
    let alpha = dot(v, w);
    if !is_finite(alpha) {
        return Err(answered(class_of(alpha), 4, j, 0));
    }
    recur(n, s, j, alpha, q, &t.betas, v, w);
    twice(n, s, j, q, v, w);
    keep(n, s, j, alpha, w, q, t, v)
}

// ---- all steps

// s steps at the most, from the vector v; what comes back is how many were begun, and what would follow. w is scratch.
pub fn steps(
    n: usize,
    s: usize,
    a: &[f64],
    q: &mut [f64],
    t: &mut Tridiagonal,
    v: &mut [f64],
    w: &mut [f64],
) -> Result<(usize, Next), Answer>
    requires { (s ≤ 256) × (n ≤ 256) × (length a.now ≡ n * n) × (length q.old ≡ s * n) × (length v.old ≡ n) × (length w.old ≡ n) }
    ensures came { (result, q.new, t.new.alphas, t.new.betas, v.new) ≡ outcome (steps n s a.now q.old t.old.alphas t.old.betas v.old) }
    ensures begun { IfErr result (λ r. (steps n s a.now q.old t.old.alphas t.old.betas v.old).0.dim ≡ r.index + 1) }
{
    let symmetric = is_symmetric(n, a);
    for j in 0..s {
        match step(n, s, symmetric, a, j, q, t, v, w)? {
            Next::Step => {}
            Next::End => return Ok((j + 1, Next::End)),
        }
    }
    Ok((s, Next::Step))
}
