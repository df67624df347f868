// What is handed back of an eigen run: the values before the vectors, or +0.0 throughout.
ghost use Rattle.std.specs.Prelude.{◌≡◌, ◌++◌, ◌≤◌, length, drop};
ghost use Rattle.eigen_symmetric_eigen.specs.ResultLaws.{laid};

use answers::Answer;
use grid::fill;

// The first numbers of result become those of d.
pub fn put_first(d: &[f64], res: &mut [f64])
    requires { length d.now ≤ length res.old }
    ensures { res.new ≡ d.now ++ drop (length d.now) res.old }
{
    res[..d.len()].copy_from_slice(d);
}

// What is lent, after a run with the values d.
pub fn give(r: Answer, d: &[f64], work: &mut [f64], res: &mut [f64]) -> Answer
    requires { length d.now ≤ length res.old }
    ensures { (result, work.new, res.new) ≡ laid r d.now work.old res.old }
{
    fill(work);
    if r.answer == 0 {
        put_first(d, res);
    } else {
        fill(res);
    }
    r
}
