// One sweep of one-sided Jacobi over the work array w, which holds the factor u (rows by cols), the factor v (cols by cols), both column by
// column, and a value for each column. A column is handed on as the index in w at which it begins, so that one function serves
// both factors and every inner loop walks along memory; by an index, since two columns of one slice are written at once. Columns p and p + 1
// go through the later ones together, p a step ahead: pairs (p, q) and (p + 1, q - 1) are of four different columns, so that neither waits for
// the other's sums, roots or turns, and pairs that share a column keep their order.
ghost use Rattle.std.specs.Prelude.{◌≡◌, ◌+◌, ◌*◌, ◌-◌, ◌≤◌, ◌<◌, length};
ghost use Rattle.grid.specs.Loop.{upto};
ghost use Rattle.svd_jacobi_svd_tall.specs.SweepLengths.{Sized};
ghost use Rattle.svd_jacobi_svd_tall.specs.Sweep.{gram, skipped, sign_of, rotation_of, rotated, pair_done, pairs_of, sweep};
ghost use Rattle.svd_jacobi_svd_tall.specs.Turned.{turned, pair_by};
ghost use Rattle.svd_jacobi_svd_tall.specs.SweepSteps.{with_row, zeta_of, tangent, rotation_by};

use crate::skip_test::at_most;
use leaves::magnitude;
use root::root;
use root::side_by_side::roots;

// The sub-Gram of a pair of columns: alpha and beta are their squared norms, gamma their product.
#[derive(Clone, Copy)]
pub struct Sums {
    pub alpha: f64,
    pub beta: f64,
    pub gamma: f64,
}

// The pair's rotation turns both factors.
#[derive(Clone, Copy)]
pub struct Rotation {
    pub c: f64,
    pub s: f64,
    pub t: f64,
}

// Before any number.
const NO_SUMS: Sums = Sums {
    alpha: 0.0,
    beta: 0.0,
    gamma: 0.0,
};

impl Sums {
    // With one number more of each column.
    fn and(self, up: f64, uq: f64) -> Sums
        ensures { result ≡ with_row up uq self }
    {
        Sums {
            alpha: self.alpha + up * up,
            beta: self.beta + uq * uq,
            gamma: self.gamma + up * uq,
        }
    }
}

fn gram(w: &[f64], a: usize, b: usize, rows: usize) -> Sums
    requires { (a + rows ≤ length w.now) × (b + rows ≤ length w.now) }
    ensures { result ≡ gram a b rows w.now }
{
    let mut x = NO_SUMS;
    for i in 0..rows {
        x = x.and(w[a + i], w[b + i]);
    }
    x
}

// Whether the columns are orthogonal to working precision.
fn skipped(x: Sums) -> bool
    ensures { result ≡ skipped x }
{
    if x.gamma == 0.0 {
        return true;
    }
    at_most(magnitude(x.gamma), x.alpha, x.beta)
}

// -0.0 takes +1.0.
fn sign_of(zeta: f64) -> f64
    ensures { result ≡ sign_of zeta }
{
    if zeta >= 0.0 { 1.0 } else { -1.0 }
}

fn zeta_of(x: Sums) -> f64
    ensures { result ≡ zeta_of x }
{
    (x.beta - x.alpha) / (2.0 * x.gamma)
}

// The tangent by zeta and the root of 1 + zeta * zeta.
fn tangent(zeta: f64, r: f64) -> f64
    ensures { result ≡ tangent zeta r }
{
    sign_of(zeta) / (magnitude(zeta) + r)
}

// The rotation by its tangent and the root of 1 + t * t.
fn rotation_by(t: f64, r: f64) -> Rotation
    ensures { result ≡ rotation_by t r }
{
    let c = 1.0 / r;
    Rotation { c, s: c * t, t }
}

fn rotation_of(x: Sums) -> Rotation
    ensures { result ≡ rotation_of x }
{
    let zeta = zeta_of(x);
    let t = tangent(zeta, root(1.0 + zeta * zeta));
    rotation_by(t, root(1.0 + t * t))
}

// Turns the columns at a and b.
fn rotate(w: &mut [f64], a: usize, b: usize, rows: usize, rot: Rotation)
    requires { (a + rows ≤ length w.old) × (b + rows ≤ length w.old) }
    ensures { w.new ≡ rotated a b rows rot w.old }
{
    for i in 0..rows {
        let up = w[a + i];
        let uq = w[b + i];
        w[a + i] = rot.c * up - rot.s * uq;
        w[b + i] = rot.s * up + rot.c * uq;
    }
}

// Turns columns p and q of both factors.
fn turn(rows: usize, cols: usize, p: usize, q: usize, rot: Rotation, w: &mut [f64])
    requires { (p < cols) × (q < cols) × Sized rows cols w.old }
    ensures { w.new ≡ turned rows cols p q rot w.old }
{
    rotate(w, p * rows, q * rows, rows, rot);
    rotate(w, rows * cols + p * cols, rows * cols + q * cols, cols, rot);
}

// Columns p and q by their sums. What comes back says whether a pair was rotated, this one or one before.
fn pair_by(
    rows: usize,
    cols: usize,
    p: usize,
    q: usize,
    g: Sums,
    changed: bool,
    w: &mut [f64],
) -> bool
    requires { (p < cols) × (q < cols) × Sized rows cols w.old }
    ensures { (result, w.new) ≡ pair_by rows cols p q g (changed, w.old) }
{
    if skipped(g) {
        return changed;
    }
    turn(rows, cols, p, q, rotation_of(g), w);
    true
}

fn pair(rows: usize, cols: usize, p: usize, q: usize, changed: bool, w: &mut [f64]) -> bool
    requires { (p < cols) × (q < cols) × Sized rows cols w.old }
    ensures { (result, w.new) ≡ pair_done rows cols p q (changed, w.old) }
{
    let g = gram(w, p * rows, q * rows, rows);
    pair_by(rows, cols, p, q, g, changed, w)
}

// ---- two pairs of four different columns side by side

// `gram` of the columns at a and b, and of those at e and f, in one walk: `gram` twice is slower.
fn gram_two(w: &[f64], a: usize, b: usize, e: usize, f: usize, rows: usize) -> (Sums, Sums)
    requires { (a + rows ≤ length w.now) × (b + rows ≤ length w.now) × (e + rows ≤ length w.now) × (f + rows ≤ length w.now) }
    ensures { result ≡ (gram a b rows w.now, gram e f rows w.now) }
{
    let mut x = NO_SUMS;
    let mut y = NO_SUMS;
    for i in 0..rows {
        x = x.and(w[a + i], w[b + i]);
        y = y.and(w[e + i], w[f + i]);
    }
    (x, y)
}

// `rotation_of` both, the roots two at a time, which is faster than one by one: eta and u are to y what zeta and t are to x.
fn rotations_of(x: Sums, y: Sums) -> (Rotation, Rotation)
    ensures { result ≡ (rotation_of x, rotation_of y) }
{
    let zeta = zeta_of(x);
    let eta = zeta_of(y);
    let r = roots(1.0 + zeta * zeta, 1.0 + eta * eta);
    let t = tangent(zeta, r.0);
    let u = tangent(eta, r.1);
    let k = roots(1.0 + t * t, 1.0 + u * u);
    (rotation_by(t, k.0), rotation_by(u, k.1))
}

// Columns p and q beside columns p + 1 and q - 1.
fn pair_two(rows: usize, cols: usize, p: usize, q: usize, changed: bool, w: &mut [f64]) -> bool
    requires { (p + 2 < q) × (q < cols) × Sized rows cols w.old }
    ensures { (result, w.new) ≡ pair_done rows cols (p + 1) (q - 1) (pair_done rows cols p q (changed, w.old)) }
{
    let (g, h) = gram_two(w, p * rows, q * rows, (p + 1) * rows, (q - 1) * rows, rows);
    if skipped(g) {
        return pair_by(rows, cols, p + 1, q - 1, h, changed, w);
    }
    if skipped(h) {
        turn(rows, cols, p, q, rotation_of(g), w);
        return true;
    }
    let (r, s) = rotations_of(g, h);
    turn(rows, cols, p, q, r, w);
    turn(rows, cols, p + 1, q - 1, s, w);
    true
}

// ---- two rows of pairs, and a sweep

// Column p with every later one, and column p + 1, a step behind it, with every later one but the last.
fn two_rows_but_last(rows: usize, cols: usize, p: usize, changed0: bool, w: &mut [f64]) -> bool
    requires { (p + 2 < cols) × Sized rows cols w.old }
    ensures { (result, w.new) ≡ upto (pair_done rows cols (p + 1)) (p + 2) (cols - 1) (pairs_of rows cols p (changed0, w.old)) }
{
    let first = pair(rows, cols, p, p + 1, changed0, w);
    let mut changed = pair(rows, cols, p, p + 2, first, w);
    for q in p + 3..cols {
        changed = pair_two(rows, cols, p, q, changed, w);
    }
    changed
}

// Column p with every later one, then column p + 1.
fn two_rows(rows: usize, cols: usize, p: usize, changed: bool, w: &mut [f64]) -> bool
    requires { (p + 1 < cols) × Sized rows cols w.old }
    ensures { (result, w.new) ≡ pairs_of rows cols (p + 1) (pairs_of rows cols p (changed, w.old)) }
{
    if p + 2 == cols {
        return pair(rows, cols, p, p + 1, changed, w);
    }
    let so_far = two_rows_but_last(rows, cols, p, changed, w);
    pair(rows, cols, p + 1, cols - 1, so_far, w)
}

// Every pair once. Says whether a pair was rotated. An odd column at the end has no later one.
pub fn sweep(rows: usize, cols: usize, w: &mut [f64]) -> bool
    requires { Sized rows cols w.old }
    ensures { (result, w.new) ≡ sweep rows cols w.old }
{
    let mut changed = false;
    for e in (1..cols).step_by(2) {
        changed = two_rows(rows, cols, e - 1, changed, w);
    }
    changed
}
