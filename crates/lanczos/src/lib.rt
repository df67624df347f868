// The leading eigenpairs of a symmetric matrix by one Lanczos run from a given start vector: the call.
#![tactic(auto)]

mod checks; // The checks of a call of `lanczos`: sizes, limit, edition and lengths
mod settings; // What the inner `symmetric_eigen` is called with
mod run; // The Lanczos run from a given start vector: document 000's `top_eigenpairs_lanczos`

ghost use Rattle.std.specs.Prelude.{◌≡◌, ◌+◌, ◌*◌, length};
ghost use Rattle.lanczos.specs.FitsLaws.{Fit};
ghost use Rattle.lanczos.specs.Checks.{work_length};
ghost use Rattle.lanczos.specs.Lanczos.{lanczos};
ghost use Rattle.lanczos.specs.LanczosLaws.{lanczos_entered};

use crate::settings::Settings;
use answers::Answer;
use answers::refusal::Refusal;
use grid::fill;
use leaves::scan::first_bad_of_both;

// The call after its checks of sizes, limit, edition and lengths.
fn enter(
    n: usize,
    k: usize,
    how: Settings,
    a: &[f64],
    b: &[f64],
    work: &mut [f64],
    x: &mut [f64],
) -> Answer
    requires { Fit n k × (length a.now ≡ n * n) × (length b.now ≡ n) × (length work.old ≡ work_length n k) × (length x.old ≡ k + k * n) }
    ensures { (result, work.new, x.new) ≡ lanczos_entered n k how.limit how.edition a.now b.now work.old }
{
    fill(work);
    fill(x);
    match first_bad_of_both(a, b) {
        None => {
            let r = crate::run::run(n, k, how, a, b, work, x);
            fill(work);
            r
        }
        Some(bad) => Refusal::NotFinite(bad.index).into(),
    }
}

pub fn lanczos(
    n: usize,
    k: usize,
    limit: usize,
    edition: usize,
    matrix: &[f64],
    start: &[f64],
    work: &mut [f64],
    answer: &mut [f64],
) -> Answer
    ensures { (result, work.new, answer.new) ≡ lanczos n k limit edition matrix.now start.now work.old answer.old }
{
    let check = crate::checks::checks(
        n,
        k,
        limit,
        edition,
        matrix.len(),
        start.len(),
        work.len(),
        answer.len(),
    );
    match check {
        Ok(()) => {
            let how = Settings { limit, edition };
            enter(n, k, how, matrix, start, work, answer)
        }
        Err(r) => r.into(),
    }
}
