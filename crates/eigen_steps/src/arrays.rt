// A run of `symmetric_eigen` on the arrays that it is lent: e in work, d at the front of the result and v behind it, column by column
// while the run goes on. What is worked on has an array of its own for d.
ghost use Rattle.std.specs.Prelude.{◌≡◌, ◌+◌, ◌*◌, ◌<◌, ◌≤◌, length};
ghost use Rattle.grid.specs.Real.{Vec, zeros};
ghost use Rattle.eigen_tql2_step.specs.Advance.{step};
ghost use Rattle.eigen_tql2_step.specs.CheckLaws.{Open};
ghost use Rattle.eigen_steps.specs.Arrays.{state_of, closed_up};
ghost use Rattle.eigen_steps.specs.ArraysLaws.{setting, laid_out, set_out, turned_out};

use crate::prepare::prepare;
use answers::Answer;
use eigen_symmetric_eigen::layout::rows;
use eigen_symmetric_eigen::result::{give, put_first};
use eigen_tql2::finish::finish;
use eigen_tql2_pass::Run;
use eigen_tql2_step::advance;
use grid::{LARGEST, fill};
use leaves::Bad;

// ---- a start

// What is lent after a start with d in an array of its own: where mark 0 saw something all is filled.
fn set_out(found: Option<Bad>, d: &[f64], work: &mut [f64], res: &mut [f64])
    requires { length d.now ≤ length res.old }
    ensures { (found, work.new, res.new) ≡ set_out found d.now work.old res.old }
{
    if found.is_none() {
        put_first(d, res);
    } else {
        fill(work);
        fill(res);
    }
}

// The start with e in work, and v in the part of the result behind d.
pub fn begin_run(n: usize, a: &[f64], work: &mut [f64], res: &mut [f64]) -> Option<Bad>
    requires { (0 < n) × (n ≤ 256) × (length a.now ≡ n * n) × (work.old ≡ zeros n) × (res.old ≡ zeros (n + n * n)) }
    ensures { (result, work.new, res.new) ≡ setting n a.now }
{
    let mut room = [0.0f64; LARGEST];
    let d = &mut room[..n];
    let found = prepare(n, a, &mut res[n..], d, work);
    set_out(found, d, work, res);
    found
}

// ---- the end of a run

// The answer of a run, the sort, and the vectors row by row where that is done.
fn turn_out(n: usize, r: Run, v: &mut [f64], d: &mut [f64]) -> Answer
    requires { (0 < n) × (length v.old ≡ n * n) × (length d.old ≡ n) }
    ensures { (e : Vec) → (result, v.new, d.new, e) ≡ turned_out n (r, v.old, d.old, e) }
{
    let x = finish(n, r, v, d);
    if x.answer != 0 {
        return x;
    }
    rows(n, v);
    x
}

// The end of a run whose checks are past.
pub fn close_up(n: usize, r: Run, work: &mut [f64], res: &mut [f64]) -> Answer
    requires { (0 < n) × (n ≤ 256) × (length work.old ≡ n) × (length res.old ≡ n + n * n) }
    ensures { (result, work.new, res.new) ≡ closed_up n r work.old res.old }
{
    let mut room = [0.0f64; LARGEST];
    let d = &mut room[..n];
    d.copy_from_slice(&res[..n]);
    let x = turn_out(n, r, &mut res[n..], d);
    give(x, d, work, res)
}

// ---- a step

// A step of `eigen_tql2_step` where d stands in the result.
pub fn move_on(
    n: usize,
    limit: usize,
    edition: usize,
    r: Run,
    work: &mut [f64],
    res: &mut [f64],
) -> Run
    requires { (n ≤ 256) × (limit ≤ 60) × Open n limit r × (length work.old ≡ n) × (length res.old ≡ n + n * n) }
    ensures { (result, work.new, res.new) ≡ laid_out (step n limit edition (state_of n r work.old res.old)) }
{
    let mut room = [0.0f64; LARGEST];
    let d = &mut room[..n];
    d.copy_from_slice(&res[..n]);
    let t = advance(n, limit, edition, r, &mut res[n..], d, work);
    put_first(d, res);
    t
}
