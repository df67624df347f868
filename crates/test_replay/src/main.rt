// Replays the oracle's cases from standard input and writes, by function, how many agree: the four numbers, and every number of
// the arrays afterwards. Each case of symmetric_eigen is run in steps too.
#![tactic(auto)]

ghost use Rattle.std.specs.Prelude.{◌<◌};

use eigen_tql2_pass::GOING;
use test_replay_cases::Case;

// ---- a case of symmetric_eigen in steps

fn unfinished(q: eigen_steps::EigenRun) -> bool {
    q.run.stop == GOING && q.run.l < q.n
}

// Steps until none is left; 60 * 256 always do.
fn stepped(q0: eigen_steps::EigenRun, work: &mut [f64], res: &mut [f64]) -> eigen_steps::EigenRun {
    let mut q = q0;
    for _ in 0..15360 {
        if !unfinished(q) {
            return q;
        }
        q = q.step(work, res);
    }
    q
}

fn in_steps(
    n: usize,
    limit: usize,
    edition: usize,
    a: &[f64],
    work: &mut [f64],
    res: &mut [f64],
) -> answers::Answer {
    let q = eigen_steps::EigenRun::start(n, limit, edition, a, work, res);
    let r = stepped(q, work, res);
    let f = r.finish(work, res);
    f.answer
}

// The case once more, on the matrix as it was given and with the same old contents.
fn agrees_in_steps(c: Case, a: &[f64], work: &mut [f64], res: &mut [f64]) -> bool {
    test_replay_cases::leave_both(c.inputs, work, res);
    let got = in_steps(
        c.asked.first as usize,
        c.asked.second as usize,
        c.asked.third as usize,
        a,
        work,
        res,
    );
    if !test_replay_cases::run_case::numbers_agree(got, c.wanted) {
        return false;
    }
    test_replay_cases::hashed2(work, res) == c.wanted.hash
}

fn fitted_in_steps(c: Case, a: &[f64], work: &mut [f64], res: &mut [f64]) -> bool {
    let l = c.lengths;
    if !test_replay_cases::room(l, a.len(), l.b as usize, work.len(), res.len()) {
        return false;
    }
    let i = l.a as usize;
    let k = l.work as usize;
    let n = l.result as usize;
    agrees_in_steps(c, &a[..i], &mut work[..k], &mut res[..n])
}

// ---- all of them

// What came of a case: the function that it calls, whether it agrees, and whether it does so in steps.
#[derive(Clone, Copy)]
struct Outcome {
    function: u64,
    good: bool,
    again: bool,
}

fn again(c: Case, a: &[f64], work: &mut [f64], res: &mut [f64]) -> bool {
    c.asked.function == 1 && fitted_in_steps(c, a, work, res)
}

// One case of the list, if there is one: function 0 stands behind the last.
fn turn(a: &mut [f64], b: &mut [f64], work: &mut [f64], res: &mut [f64]) -> Option<Outcome> {
    let c = test_replay_cases::read_case();
    let function = c.asked.function;
    if function == 0 {
        return None;
    }
    let good = test_replay_cases::run_case::fitted(c, a, b, work, res);
    let again = again(c, a, work, res);
    Some(Outcome {
        function,
        good,
        again,
    })
}

// Of the functions 1 to 7, 7 being symmetric_eigen in steps: counts[f] is how many cases there were of f, counts[8 + f] how many agreed.
fn add(counts: &mut [u64], i: usize, one: bool) {
    if i < counts.len() {
        counts[i] = std::num::wrapping_add_u64(counts[i], one as u64);
    }
}

fn note(counts: &mut [u64], function: u64, good: bool) {
    if function < 8 {
        let f = function as usize;
        add(counts, f, true);
        add(counts, 8 + f, good);
    }
}

fn count(counts: &mut [u64], o: Outcome) {
    note(counts, o.function, o.good);
    if o.function == 1 {
        note(counts, 7, o.again);
    }
}

// The list ends, but nothing says so: the bound is none that a list has.
fn replay(a: &mut [f64], b: &mut [f64], work: &mut [f64], res: &mut [f64], counts: &mut [u64]) {
    for _ in 0..u64::MAX {
        let Some(o) = turn(a, b, work, res) else {
            return;
        };
        count(counts, o);
    }
}

fn replay_all(counts: &mut [u64]) {
    // r + m·r + r·n at the largest sizes, and room for lengths that are wrong by a little.
    let mut a = [0.0f64; 131400];
    let mut b = [0.0f64; 300];
    let mut work = [0.0f64; 131400];
    let mut result = [0.0f64; 131400];
    replay(&mut a, &mut b, &mut work, &mut result, counts);
}

fn line(name: &[u8], agreeing: u64, all: u64) {
    io::write_all(1, name);
    io::write_all(1, b": ");
    io::print_decimal(1, agreeing);
    io::write_all(1, b" of ");
    io::print_decimal(1, all);
    io::write_all(1, b"\n");
}

fn line_of(f: usize, name: &[u8], counts: &[u64; 16])
    requires { f < 8 }
{
    line(name, counts[8 + f], counts[f]);
}

fn lines(counts: &[u64; 16]) {
    line_of(1, b"symmetric_eigen", counts);
    line_of(2, b"svd", counts);
    line_of(3, b"solve", counts);
    line_of(4, b"pseudo_inverse", counts);
    line_of(5, b"qr_q", counts);
    line_of(6, b"row of V^T", counts);
    line_of(7, b"symmetric_eigen in steps", counts);
}

fn main() {
    let mut counts = [0u64; 16];
    replay_all(&mut counts);
    lines(&counts);
}
