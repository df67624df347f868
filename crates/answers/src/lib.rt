// What a call comes back with, and the length of an svd result.
#![tactic(auto)]

pub mod checks; // The checks that several calls share
pub mod refusal; // Why a call is refused, by the names of the C header: all but what a run comes to at its marks or its limit

ghost use Rattle.std.specs.Prelude.{◌≡◌, ◌≤◌};
ghost use Rattle.answers.specs.Answers.{answered, done, refused, emptied, marked, least, present, decomposition_length};

use grid::fill;
use leaves::Bad;

// The four numbers: answer is 0 where the call is done, else the refusal. C gets them, and so a run gives them whole: a done one has a count, and that of `lanczos` a place.
#[repr(C)]
#[derive(Clone, Copy)]
pub struct Answer {
    pub answer: usize,
    pub place: usize,
    pub index: usize,
    pub count: usize,
}

// The four numbers are made here and nowhere else.
pub fn answered(answer: usize, place: usize, index: usize, count: usize) -> Answer
    ensures { result ≡ answered answer place index count }
{
    Answer {
        answer,
        place,
        index,
        count,
    }
}

// Done, after so many passes or sweeps.
pub fn done(count: usize) -> Answer
    ensures { result ≡ done count }
{
    answered(0, 0, 0, count)
}

// A refusal before the run.
pub fn refused(answer: usize, place: usize) -> Answer
    ensures { result ≡ refused answer place }
{
    answered(answer, place, 0, 0)
}

// A refusal before or after a run, which fills x with +0.0.
pub fn refuse(r: Answer, x: &mut [f64]) -> Answer
    ensures { (result, x.new) ≡ emptied r x.old }
{
    fill(x);
    r
}

// What a mark answers after so many passes or sweeps: 8 or 10, or done.
pub fn marked(mark: usize, count: usize, b: Option<Bad>) -> Answer
    ensures { result ≡ marked mark count b }
{
    match b {
        Some(bad) => answered(bad.class, mark, bad.index, count),
        None => done(count),
    }
}

// r, the smaller of m and n.
pub fn least(m: usize, n: usize) -> usize
    ensures { result ≡ least m n }
{
    if m < n { m } else { n }
}

// count where the flag is not 0, else nothing. Flags are numbers, as C gives them.
pub fn present(flag: usize, count: usize) -> usize
    ensures { result ≡ present flag count }
{
    if flag == 0 { 0 } else { count }
}

// How many numbers an svd result has: r values, U if it is there, V^T if it is there.
pub fn decomposition_length(m: usize, n: usize, has_u: usize, has_vt: usize) -> usize
    requires { (m ≤ 256) × (n ≤ 256) }
    ensures { result ≡ decomposition_length m n has_u has_vt }
{
    let r = least(m, n);
    r + present(has_u, m * r) + present(has_vt, r * n)
}
