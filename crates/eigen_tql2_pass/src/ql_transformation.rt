// The QL transformation of one pass of `tql2` (EISPACK's, with the implicit shift), with the hypot of an edition, over the diagonal d, the subdiagonal e and the vectors v.
ghost use Rattle.std.specs.Prelude.{◌≡◌, ◌+◌, ◌*◌, ◌<◌, ◌≤◌, length};
ghost use Rattle.grid.specs.CellLaws.{Sized};
ghost use Rattle.eigen_tql2_pass.specs.Transform.{signed, shift, lessened, rotated, spin, spins, landed, transformed};

use grid::{at, put};
use hypot::pythag;

// What one turn of a pass hands to the next.
#[derive(Clone, Copy)]
pub struct Spin {
    pub c: f64,
    pub c2: f64,
    pub c3: f64,
    pub s: f64,
    pub s2: f64,
    pub p: f64,
}

// r, with a minus where p is below 0.
fn signed(p: f64, r: f64) -> f64
    ensures { result ≡ signed p r }
{
    if p < 0.0 { -r } else { r }
}

// The implicit shift at l: d[l] and d[l + 1] change, and h is given back.
fn shift(edition: usize, l: usize, d: &mut [f64], e: &[f64]) -> f64
    requires { (l + 1 < length d.old) × (l < length e.now) }
    ensures { (result, d.new) ≡ shift edition l d.old e.now }
{
    let g = d[l];
    let el = e[l];
    let p = (d[l + 1] - g) / (2.0 * el);
    let q = p + signed(p, pythag(edition, p, 1.0));
    let dl = el / q;
    d[l] = dl;
    d[l + 1] = el * q;
    g - dl
}

// d less h, from l + 2 on.
fn lessen(n: usize, l: usize, h: f64, d: &mut [f64])
    requires { (l + 1 < n) × (length d.old ≡ n) }
    ensures { d.new ≡ lessened n l h d.old }
{
    for i in l + 2..n {
        d[i] -= h;
    }
}

// Columns i and i + 1 of v are turned.
fn rotate(n: usize, i: usize, c: f64, s: f64, v: &mut [f64])
    requires { (i + 1 < n) × (length v.old ≡ n * n) }
    ensures { v.new ≡ rotated n i c s v.old }
{
    for k in 0..n {
        let g = at(v, n, n, k, i);
        let h = at(v, n, n, k, i + 1);
        put(v, n, n, k, i + 1, s * g + c * h);
        put(v, n, n, k, i, c * g - s * h);
    }
}

// One turn of the transformation, at i.
fn spin_at(
    n: usize,
    edition: usize,
    i: usize,
    q: Spin,
    v: &mut [f64],
    d: &mut [f64],
    e: &mut [f64],
) -> Spin
    requires { (i + 1 < n) × Sized n v.old d.old e.old }
    ensures { (result, v.new, d.new, e.new) ≡ spin n edition i (q, v.old, d.old, e.old) }
{
    let di = d[i];
    let ei = e[i];
    let g = q.c * ei;
    let h = q.c * q.p;
    let r = pythag(edition, q.p, ei);
    e[i + 1] = q.s * r;
    let s = ei / r;
    let c = q.p / r;
    d[i + 1] = h + s * (c * g + s * di);
    rotate(n, i, c, s, v);
    Spin {
        c,
        c2: q.c,
        c3: q.c2,
        s,
        s2: q.s,
        p: c * di - s * g,
    }
}

// The turns at m - 1, m - 2, .., l.
fn spins(
    n: usize,
    edition: usize,
    l: usize,
    m: usize,
    first: Spin,
    v: &mut [f64],
    d: &mut [f64],
    e: &mut [f64],
) -> Spin
    requires { (l ≤ m) × (m < n) × Sized n v.old d.old e.old }
    ensures { (result, v.new, d.new, e.new) ≡ spins n edition l m (first, v.old, d.old, e.old) }
{
    let mut q = first;
    for i in (l..m).rev() {
        q = spin_at(n, edition, i, q, v, d, e);
    }
    q
}

// What the turns leave at l.
fn land(l: usize, q: Spin, el1: f64, dl1: f64, d: &mut [f64], e: &mut [f64])
    requires { (l < length d.old) × (l < length e.old) }
    ensures { (d.new, e.new) ≡ landed l q el1 dl1 (d.old, e.old) }
{
    let p = -q.s * q.s2 * q.c3 * el1 * e[l] / dl1;
    e[l] = q.s * p;
    d[l] = q.c * p;
}

// The body of document 000's loop, which adds the h given back to f.
pub fn transform(
    n: usize,
    edition: usize,
    l: usize,
    m: usize,
    v: &mut [f64],
    d: &mut [f64],
    e: &mut [f64],
) -> f64
    requires { (l < m) × (m < n) × Sized n v.old d.old e.old }
    ensures { (result, v.new, d.new, e.new) ≡ transformed n edition l m (v.old, d.old, e.old) }
{
    let h = shift(edition, l, d, e);
    let dl1 = d[l + 1];
    lessen(n, l, h, d);
    let el1 = e[l + 1];
    let first = Spin {
        c: 1.0,
        c2: 1.0,
        c3: 1.0,
        s: 0.0,
        s2: 0.0,
        p: d[m],
    };
    let q = spins(n, edition, l, m, first, v, d, e);
    land(l, q, el1, dl1, d, e);
    h
}
