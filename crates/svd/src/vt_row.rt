// Row j of V^T in an svd result: the part that it is, and the same part by its numbers.
ghost use Rattle.std.specs.Prelude.{◌≡◌, length};
ghost use Rattle.svd.specs.VtRow.{row_span, part_of, part_at, extent_of};
ghost use Rattle.svd.specs.VtRowLaws.{Within};

use answers::{decomposition_length, least, present};
use grid::LARGEST;

// Where a row of V^T stands in a decomposition: from an index up to another. The flags are numbers, as C gives them: 0 is no.
#[tactic(auto, using(crate::specs::VtRowLaws::row_fits, crate::specs::VtRowLaws::u_small))]
fn row_span(
    len: usize,
    m: usize,
    n: usize,
    has_u: usize,
    has_vt: usize,
    j: usize,
) -> Option<(usize, usize)>
    ensures value { result ≡ row_span len m n has_u has_vt j }
    ensures within { Within len result }
{
    if m > LARGEST || n > LARGEST || has_vt == 0 {
        return None;
    }
    let r = least(m, n);
    if j >= r || len != decomposition_length(m, n, has_u, has_vt) {
        return None;
    }
    let a = r + present(has_u, m * r) + j * n;
    Some((a, a + n))
}

// Row j of V^T: that part of the decomposition.
pub fn vt_row<'a>(
    m: usize,
    n: usize,
    has_u: usize,
    has_vt: usize,
    j: usize,
    decomposition: &'a [f64],
) -> &'a [f64]
    ensures result_value { result.now ≡ part_of decomposition.now (row_span (length decomposition.now) m n has_u has_vt j) }
    ensures ref_ptr_value { result.ref_ptr ≡ part_at decomposition.entry.ref_ptr (row_span (length decomposition.now) m n has_u has_vt j) }
{
    let Some((a, e)) = row_span(decomposition.len(), m, n, has_u, has_vt, j) else {
        return &decomposition[0..0];
    };
    &decomposition[a..e]
}

// The same part by its numbers, for a caller in C: both are 0 for the empty part.
#[repr(C)]
#[derive(Clone, Copy)]
pub struct Extent {
    pub start: usize,
    pub length: usize,
}

pub fn vt_row_extent(
    m: usize,
    n: usize,
    has_u: usize,
    has_vt: usize,
    len: usize,
    j: usize,
) -> Extent
    ensures { result ≡ extent_of (row_span len m n has_u has_vt j) }
{
    let Some((a, e)) = row_span(len, m, n, has_u, has_vt, j) else {
        return Extent {
            start: 0,
            length: 0,
        };
    };
    Extent {
        start: a,
        length: e - a,
    }
}
