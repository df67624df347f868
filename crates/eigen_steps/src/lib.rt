// The run of `symmetric_eigen` one QL pass at a time: a start, steps, and a finish. e stands in work, d at the front of
// result, and v behind it, column by column until the finish.
#![tactic(auto)]

mod prepare; // A run of `symmetric_eigen` made ready for its first l
mod arrays; // A run of `symmetric_eigen` on the arrays that it is lent: e in work, d at the front of the result and v behind it, column by column while the run goes on

ghost use Rattle.std.specs.Prelude.{◌≡◌, ◌+◌, ◌*◌, ◌<◌, ◌≤◌, length};
ghost use Rattle.grid.specs.Real.{zeros};
ghost use Rattle.eigen_tql2_step.specs.CheckLaws.{Open};
ghost use Rattle.eigen_steps.specs.Steps.{begun, start_entered, started, moved, stepped, finished};
ghost use Rattle.eigen_steps.specs.StepsLaws.{new_run, ended_with};

use crate::arrays::{begin_run, close_up, move_on};
use answers::refusal::Refusal;
use answers::{Answer, answered, done};
use eigen_symmetric_eigen::checks;
use eigen_tql2::l_start_end::stopping;
use eigen_tql2_pass::{CONVERGED, GOING, Run};
use eigen_tql2_step::checks::checked;
use grid::fill;
use leaves::scan::first_bad_lower;

// A run of `symmetric_eigen`. It goes on while run.stop is GOING and has ended otherwise; answer is what the last call gave. Between
// steps run.l is the l that is worked on, n where the last is done, and run.passes is 0 where the search for m is still to come.
#[repr(C)]
#[derive(Clone, Copy)]
pub struct EigenRun {
    pub n: usize,
    pub limit: usize,
    pub edition: usize,
    pub run: Run,
    pub answer: Answer,
}

// ---- a start

// The start of a run of at least one l.
fn begin(
    n: usize,
    limit: usize,
    edition: usize,
    matrix: &[f64],
    work: &mut [f64],
    res: &mut [f64],
) -> EigenRun
    requires { (0 < n) × (n ≤ 256) × (length matrix.now ≡ n * n) × (work.old ≡ zeros n) × (res.old ≡ zeros (n + n * n)) }
    ensures { (result, work.new, res.new) ≡ begun n limit edition matrix.now }
{
    let q = EigenRun::new(n, limit, edition);
    match begin_run(n, matrix, work, res) {
        Some(bad) => q.ended(answered(bad.class, 0, bad.index, 0)),
        None => q,
    }
}

// The start after its checks of sizes, limit, edition and lengths.
fn enter(
    n: usize,
    limit: usize,
    edition: usize,
    matrix: &[f64],
    work: &mut [f64],
    res: &mut [f64],
) -> EigenRun
    requires { (n ≤ 256) × (length matrix.now ≡ n * n) × (length work.old ≡ n) × (length res.old ≡ n + n * n) }
    ensures { (result, work.new, res.new) ≡ start_entered n limit edition matrix.now }
{
    fill(work);
    fill(res);
    let q = EigenRun::new(n, limit, edition);
    match first_bad_lower(n, matrix) {
        Some(bad) => q.ended(Refusal::NotFinite(bad.index).into()),
        None if n == 0 => q.ended(done(0)),
        None => begin(n, limit, edition, matrix, work, res),
    }
}

impl EigenRun {
    // A run before its first l.
    fn new(n: usize, limit: usize, edition: usize) -> EigenRun
        ensures { result ≡ new_run n limit edition }
    {
        EigenRun {
            n,
            limit,
            edition,
            run: Run::default(),
            answer: done(0),
        }
    }

    // The run ends.
    fn ended(self, answer: Answer) -> EigenRun
        ensures { result ≡ ended_with self answer }
    {
        EigenRun {
            run: stopping(self.run, CONVERGED),
            answer,
            ..self
        }
    }

    // A run of the matrix before its first pass, or one that has ended.
    pub fn start(
        n: usize,
        limit: usize,
        edition: usize,
        matrix: &[f64],
        work: &mut [f64],
        res: &mut [f64],
    ) -> EigenRun
        ensures { (result, work.new, res.new) ≡ started n limit edition matrix.now work.old res.old }
    {
        match checks(n, limit, edition, matrix.len(), work.len(), res.len()) {
            Ok(()) => enter(n, limit, edition, matrix, work, res),
            Err(r) => EigenRun::new(n, limit, edition).ended(r.into()),
        }
    }

    // ---- a step

    // A step whose checks are past.
    fn go_on(self, work: &mut [f64], res: &mut [f64]) -> EigenRun
        requires { (0 < self.n) × (self.n ≤ 256) × (self.limit ≤ 60) × Open self.n self.limit self.run × (length work.old ≡ self.n) × (length res.old ≡ self.n + self.n * self.n) }
        ensures { (result, work.new, res.new) ≡ moved self.n self.limit self.edition self.run work.old res.old }
    {
        let run = move_on(self.n, self.limit, self.edition, self.run, work, res);
        if run.stop == GOING {
            return EigenRun {
                run,
                answer: done(run.count),
                ..self
            };
        }
        EigenRun {
            run,
            answer: close_up(self.n, run, work, res),
            ..self
        }
    }

    // Settled l are skipped, and one pass is run, none after the last l.
    pub fn step(self, work: &mut [f64], res: &mut [f64]) -> EigenRun
        ensures { (result, work.new, res.new) ≡ stepped self work.old res.old }
    {
        let run = self.run;
        if run.stop != GOING {
            return self;
        }
        match checked(self.n, self.limit, self.edition, run, work, res) {
            Ok(()) => self.go_on(work, res),
            Err(r) => EigenRun {
                answer: r.into(),
                ..self
            },
        }
    }

    // ---- a finish

    // Mark 2 and the sort, once the last l is done.
    pub fn finish(self, work: &mut [f64], res: &mut [f64]) -> EigenRun
        ensures { (result, work.new, res.new) ≡ finished self work.old res.old }
    {
        if self.run.stop != GOING {
            return self;
        }
        match checked(self.n, self.limit, self.edition, self.run, work, res) {
            Ok(()) if self.run.l < self.n => EigenRun {
                answer: Refusal::Run.into(),
                ..self
            },
            Ok(()) => {
                let answer = close_up(self.n, self.run, work, res);
                self.ended(answer)
            }
            Err(r) => EigenRun {
                answer: r.into(),
                ..self
            },
        }
    }
}
