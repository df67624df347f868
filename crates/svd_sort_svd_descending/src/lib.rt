// The decomposition in its order: values, U and V^T out of the work array into the result.
#![tactic(auto)]

pub mod order; // The order of document 000's `sort_svd_descending`, by counting

ghost use Rattle.std.specs.Prelude.{◌≡◌, ℕ, ◌+◌, ◌*◌, ◌≤◌, ◌<◌, length};
ghost use Rattle.svd_sort_svd_descending.specs.Result.{longest, sorted_out};
ghost use Rattle.svd_sort_svd_descending.specs.OutLaws.{column_out, factor_out, offset};
ghost use Rattle.svd_sort_svd_descending.specs.ResultSizes.{Checked, Out};

use crate::order::note;
use answers::{least, present};
use grid::LARGEST;

// L, the larger of m and n.
pub fn longest(m: usize, n: usize) -> usize
    ensures { result ≡ longest m n }
{
    m.max(n)
}

// So many numbers of w go to every down-th number of the result.
fn column_out(w: &[f64], from: usize, rows: usize, to: usize, down: usize, res: &mut [f64])
    requires { (from + rows ≤ length w.now) × ((i : ℕ) → i < rows → to + i * down < length res.old) }
    ensures { res.new ≡ column_out from rows to down w.now res.old }
{
    for i in 0..rows {
        res[to + i * down] = w[from + i];
    }
}

// The columns of a factor in their order.
fn factor_out(
    cols: usize,
    w: &[f64],
    from: usize,
    rows: usize,
    to: usize,
    down: usize,
    across: usize,
    o: &[usize; LARGEST],
    res: &mut [f64],
)
    requires { Out cols from rows to down across w.now o.now res.old }
    ensures { res.new ≡ factor_out cols from rows to down across w.now o.now res.old }
{
    for k in 0..cols {
        let j = o[k];
        column_out(w, from + j * rows, rows, to + k * across, down, res);
    }
}

fn offset(b: bool, k: usize) -> usize
    ensures { result ≡ offset b k }
{
    if b { k } else { 0 }
}

// The result where the run is done: the factor with L rows stands first in w.
pub fn sorted_out(m: usize, n: usize, want_u: usize, want_vt: usize, w: &[f64], res: &mut [f64])
    requires { Checked m n want_u want_vt w.now res.old }
    ensures { res.new ≡ sorted_out m n want_u want_vt w.now }
{
    let r = least(m, n);
    let second = longest(m, n) * r;
    let values = second + r * r;
    let mut o = [0usize; LARGEST];
    note(w, values, r, &mut o);
    factor_out(r, w, values, 1, 0, 1, 1, &o, res);
    let u_at = offset(m < n, second);
    factor_out(present(want_u, r), w, u_at, m, r, r, 1, &o, res);
    let v_at = offset(m >= n, second);
    let to = r + present(want_u, m * r);
    factor_out(present(want_vt, r), w, v_at, n, to, 1, n, &o, res);
}
