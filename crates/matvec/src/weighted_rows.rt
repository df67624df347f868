// Rows of a matrix, each by a number, added up: sixteen columns of eight rows at a time, so that what is summed stays at hand. Each number of
// the sum is summed from the first row on, at +0.0.
ghost use Rattle.std.specs.Prelude.{◌≡◌, ◌+◌, ◌*◌, ◌<◌, ◌≤◌, length};
ghost use Rattle.grid.specs.Loop.{upto};
ghost use Rattle.grid.specs.TableLaws.{turns};
ghost use Rattle.matvec.specs.Strips.{column_step, cell_step, sixteen_step, row_step, stripped};

use grid::entry;

// ---- sixteen columns

// Row r from column c on, by x, added to y.
fn row(s: usize, n: usize, r: usize, c: usize, x: f64, a: &[f64], y: &mut [f64; 16])
    requires { (r < s) × (c + 15 < n) × (length a.now ≡ s * n) }
    ensures { y.new ≡ upto (sixteen_step n a.now r c x) 0 16 y.old }
{
    for k in 0..16 {
        y[k] += entry(a, s, n, r, c + k) * x;
    }
}

// Rows j to j + k, each by its number of v.
#[inline(always)]
fn some(s: usize, n: usize, j: usize, k: usize, c: usize, a: &[f64], v: &[f64], y: &mut [f64; 16])
    requires { (j + k ≤ s) × (j + k ≤ length v.now) × (c + 15 < n) × (length a.now ≡ s * n) }
    ensures { y.new ≡ upto (row_step n a.now v.now c) j (j + k) y.old }
{
    for i in 0..k {
        row(s, n, j + i, c, v[j + i], a, y);
    }
}

// Rows j to e. Eight are known beforehand to be eight, so that they are worked on without a loop.
fn rows(s: usize, n: usize, j: usize, e: usize, c: usize, a: &[f64], v: &[f64], y: &mut [f64; 16])
    requires { (j ≤ e) × (e ≤ s) × (e ≤ length v.now) × (c + 15 < n) × (length a.now ≡ s * n) }
    ensures { y.new ≡ upto (row_step n a.now v.now c) j e y.old }
{
    if e - j == 8 {
        some(s, n, j, 8, c, a, v, y);
    } else {
        some(s, n, j, e - j, c, a, v, y);
    }
}

// Rows j to e from column c on added to w, which has the sixteen numbers from there on.
fn strip(s: usize, n: usize, j: usize, e: usize, c: usize, a: &[f64], v: &[f64], w: &mut [f64])
    requires { (j ≤ e) × (e ≤ s) × (e ≤ length v.now) × (c + 15 < n) × (length a.now ≡ s * n) × (length w.old ≡ 16) }
    ensures { w.new ≡ stripped n a.now v.now j e c w.old }
{
    let mut y = [0.0; 16];
    y.copy_from_slice(w);
    rows(s, n, j, e, c, a, v, &mut y);
    w.copy_from_slice(&y);
}

// ---- all columns

// The same of column c alone.
fn column(s: usize, n: usize, j: usize, e: usize, c: usize, a: &[f64], v: &[f64], w: &mut [f64])
    requires { (j ≤ e) × (e ≤ s) × (e ≤ length v.now) × (c < n) × (length a.now ≡ s * n) × (length w.old ≡ n) }
    ensures { w.new ≡ cell_step n a.now v.now j e c w.old }
{
    let mut acc = w[c];
    for r in j..e {
        acc += entry(a, s, n, r, c) * v[r];
    }
    w[c] = acc;
}

// Rows j to e added to w, all columns of them: as many strips as there is room for, and what is left one by one.
fn band(s: usize, n: usize, j: usize, e: usize, a: &[f64], v: &[f64], w: &mut [f64])
    requires { (n ≤ 256) × (j ≤ e) × (e ≤ s) × (e ≤ length v.now) × (length a.now ≡ s * n) × (length w.old ≡ n) }
    ensures { w.new ≡ upto (cell_step n a.now v.now j e) 0 n w.old }
{
    for q in 0..n / 16 {
        let c = q * 16;
        strip(s, n, j, e, c, a, v, &mut w[c..c + 16]);
    }
    for c in n / 16 * 16..n {
        column(s, n, j, e, c, a, v, w);
    }
}

// ---- all rows

// w is the sum of the first m of the s rows of a, row r by number r of v: eight at a time, and what is left.
pub fn sum(s: usize, m: usize, n: usize, a: &[f64], v: &[f64], w: &mut [f64])
    requires { (n ≤ 256) × (m ≤ 256) × (m ≤ s) × (length a.now ≡ s * n) × (length v.now ≡ m) × (length w.old ≡ n) }
    ensures { w.new ≡ turns (column_step n a.now v.now) n m }
{
    w.fill(0.0);
    for j in (0..m).step_by(8) {
        band(s, n, j, m.min(j + 8), a, v, w);
    }
}
