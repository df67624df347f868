// One case of the oracle's list: its call on arrays of its lengths, and whether what came back is what the list says.
use crate::{Asked, Case, Wanted};
use answers::Answer;
use octets::float;

fn call(c: Asked, a: &[f64], b: &[f64], work: &mut [f64], res: &mut [f64]) -> Answer {
    let m = c.first as usize;
    let n = c.second as usize;
    let u = c.third as usize;
    let v = c.fourth as usize;
    match c.function {
        1 => eigen_symmetric_eigen::symmetric_eigen(m, n, u, a, work, res),
        2 => svd::svd(m, n, u, v, c.fifth as usize, a, work, res),
        3 => solve::solve(m, n, u, v, float(c.fifth), a, b, res),
        4 => solve::pseudo_inverse(m, n, u, v, float(c.fifth), a, res),
        _ => qr_q::qr_q(m, n, a, res),
    }
}

// Field by field: the list's numbers are of 64 bits wherever it is read, and it has a hash besides.
pub fn numbers_agree(got: Answer, wanted: Wanted) -> bool {
    (got.answer as u64 == wanted.answer)
        & (got.place as u64 == wanted.place)
        & (got.index as u64 == wanted.index)
        & (got.count as u64 == wanted.count)
}

fn call_agrees(
    c: Asked,
    wanted: Wanted,
    a: &[f64],
    b: &[f64],
    work: &mut [f64],
    res: &mut [f64],
) -> bool {
    let got = call(c, a, b, work, res);
    crate::arrays_agree(wanted, work, res) & numbers_agree(got, wanted)
}

fn row_agrees(c: Asked, wanted: Wanted, a: &[f64]) -> bool {
    let row = svd::vt_row::vt_row(
        c.first as usize,
        c.second as usize,
        c.third as usize,
        c.fourth as usize,
        c.fifth as usize,
        a,
    );
    crate::row_agrees(wanted, row) & (row.len() as u64 == wanted.answer)
}

fn agrees(c: Case, a: &[f64], b: &[f64], work: &mut [f64], res: &mut [f64]) -> bool {
    if c.asked.function == 6 {
        return row_agrees(c.asked, c.wanted, a);
    }
    call_agrees(c.asked, c.wanted, a, b, work, res)
}

// Prepares the arrays, which have the case's lengths, makes the call and compares.
fn case(c: Case, a: &mut [f64], b: &mut [f64], work: &mut [f64], res: &mut [f64]) -> bool {
    crate::give_both(c.inputs, a, b);
    crate::leave_both(c.inputs, work, res);
    agrees(c, a, b, work, res)
}

// The case on parts of the arrays that have its lengths; false where they have no room for it.
pub fn fitted(c: Case, a: &mut [f64], b: &mut [f64], work: &mut [f64], res: &mut [f64]) -> bool {
    let l = c.lengths;
    if !crate::room(l, a.len(), b.len(), work.len(), res.len()) {
        return false;
    }
    let i = l.a as usize;
    let j = l.b as usize;
    let k = l.work as usize;
    let n = l.result as usize;
    case(c, &mut a[..i], &mut b[..j], &mut work[..k], &mut res[..n])
}
