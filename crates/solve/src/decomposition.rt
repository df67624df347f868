// A decomposition by its parts.
ghost use Rattle.std.specs.Prelude.{◌≡◌, ◌*◌, ◌≤◌, length, take};
ghost use Rattle.answers.specs.Answers.{least};
ghost use Rattle.solve.specs.Solution.{u_of, vt_of};
ghost use Rattle.solve.specs.SolutionLaws.{Sized};

use answers::least;

// The r values, r the smaller of m and n, then U (m by r) and V^T (r by n), row by row.
#[derive(Clone, Copy)]
pub struct Parts<'a> {
    pub m: usize,
    pub n: usize,
    pub r: usize,
    pub s: &'a [f64],
    pub u: &'a [f64],
    pub vt: &'a [f64],
    pub ghost fit: { (r ≤ 256) × (length s.now ≡ r) × (length u.now ≡ m * r) × (length vt.now ≡ r * n) },
}

pub fn parts_of<'a>(m: usize, n: usize, d: &'a [f64]) -> Parts<'a>
    requires { Sized m n (length d.now) }
    ensures sizes { (result.m ≡ m) × (result.n ≡ n) × (result.r ≡ least m n) }
    ensures s { result.s.now ≡ take (least m n) d.now }
    ensures u { result.u.now ≡ u_of m (least m n) d.now }
    ensures vt { result.vt.now ≡ vt_of m (least m n) d.now }
{
    let r = least(m, n);
    let e = r + m * r;
    Parts {
        m,
        n,
        r,
        s: &d[..r],
        u: &d[r..e],
        vt: &d[e..],
    }
}
