// The run of one-sided Jacobi on the work array w of `sweep`: sweeps with mark 1 and the limit, then the values and mark 2.
#![tactic(auto)]

mod skip_test; // Whether g is at most EPSILON times the root of a * b, with no root where that is clear
pub mod sweep; // One sweep of one-sided Jacobi over the work array w, which holds the factor u (rows by cols), the factor v (cols by cols), both column by column, and a value for each column
mod singular_values; // The values of a run of one-sided Jacobi and its columns over them, on the work array w of `sweep`
mod marks; // What the marks of a run of one-sided Jacobi find in its values and factors, on the work array w of `sweep`

ghost use Rattle.std.specs.Prelude.{◌≡◌, ◌≤◌, false, IfErr};
ghost use Rattle.answers.specs.Answers.{done, passed};
ghost use Rattle.svd_jacobi_svd_tall.specs.SweepLengths.{Sized};
ghost use Rattle.svd_jacobi_svd_tall.specs.JacobiSvdTall.{sweeps, finished, jacobi};
ghost use Rattle.svd_jacobi_svd_tall.specs.SweepCount.{told};

use crate::marks::{all_bad, factors_bad};
use crate::singular_values::normalise;
use crate::sweep::sweep;
use answers::{Answer, answered, marked};

// Sweeps until one rotates no pair, at most limit: how many, or mark 1, or refusal 9 where the limit leaves no other.
fn sweeps(rows: usize, cols: usize, limit: usize, w: &mut [f64]) -> Result<usize, Answer>
    requires { (limit ≤ 60) × Sized rows cols w.old }
    ensures value { (told result, w.new) ≡ sweeps rows cols limit w.old }
    ensures refused { IfErr result (λ a. passed a ≡ false) }
{
    for before in 0..limit {
        let changed = sweep(rows, cols, w);
        let bad = factors_bad(rows, cols, w);
        if bad.is_some() {
            return Err(marked(1, before + 1, bad));
        }
        if !changed {
            return Ok(before + 1);
        }
    }
    Err(answered(9, limit, 0, limit))
}

// The values, where so many sweeps settled.
fn finish(rows: usize, cols: usize, count: usize, w: &mut [f64]) -> Answer
    requires { Sized rows cols w.old }
    ensures { (result, w.new) ≡ finished rows cols (done count, w.old) }
{
    normalise(rows, cols, w);
    marked(2, count, all_bad(rows, cols, w))
}

pub fn jacobi(rows: usize, cols: usize, limit: usize, w: &mut [f64]) -> Answer
    requires { (limit ≤ 60) × Sized rows cols w.old }
    ensures { (result, w.new) ≡ jacobi rows cols limit w.old }
{
    match sweeps(rows, cols, limit, w) {
        Ok(count) => finish(rows, cols, count, w),
        Err(refusal) => refusal,
    }
}
