// The reduction to tridiagonal form, operation for operation. v stands column by column, so that every inner loop walks along memory.
ghost use Rattle.std.specs.Prelude.{◌≡◌, ◌*◌, ◌<◌, ◌≤◌, length};
ghost use Rattle.grid.specs.CellLaws.{Sized};
ghost use Rattle.eigen_tred2_definition.specs.Tred2.{skip_row, over_h, lessen, update_column, updates, reflect, skip, reduce, householder, reduction};

use crate::householder::{generate, scale_of};
use crate::similarity::similarity;
use grid::{at, put};

fn skip_row(n: usize, i: usize, v: &mut [f64], d: &mut [f64])
    requires { (0 < i) × (i < n) × (length v.old ≡ n * n) × (length d.old ≡ n) }
    ensures { (v.new, d.new) ≡ skip_row n i (v.old, d.old) }
{
    for j in 0..i {
        d[j] = at(v, n, n, i - 1, j);
        put(v, n, n, i, j, 0.0);
        put(v, n, n, j, i, 0.0);
    }
}

fn over_h(i: usize, h: f64, d: &[f64], e: &mut [f64]) -> f64
    requires { (i ≤ length d.now) × (i ≤ length e.old) }
    ensures { (result, e.new) ≡ over_h i h d.now e.old }
{
    let mut f = 0.0;
    for j in 0..i {
        let x = e[j] / h;
        e[j] = x;
        f += x * d[j];
    }
    f
}

fn lessen(i: usize, hh: f64, d: &[f64], e: &mut [f64])
    requires { (i ≤ length d.now) × (i ≤ length e.old) }
    ensures { e.new ≡ lessen i hh d.now e.old }
{
    for j in 0..i {
        e[j] -= hh * d[j];
    }
}

fn update_column(n: usize, i: usize, j: usize, f: f64, g: f64, v: &mut [f64], d: &[f64], e: &[f64])
    requires { (j < i) × (i < n) × Sized n v.old d.now e.now }
    ensures { v.new ≡ update_column n i j f g d.now e.now v.old }
{
    for k in j..i {
        let x = f * e[k] + g * d[k];
        put(v, n, n, k, j, at(v, n, n, k, j) - x);
    }
}

fn updates(n: usize, i: usize, v: &mut [f64], d: &mut [f64], e: &[f64])
    requires { (0 < i) × (i < n) × Sized n v.old d.old e.now }
    ensures { (v.new, d.new) ≡ updates n i e.now (v.old, d.old) }
{
    for j in 0..i {
        update_column(n, i, j, d[j], e[j], v, d, e);
        d[j] = at(v, n, n, i - 1, j);
        put(v, n, n, i, j, 0.0);
    }
}

fn reflect(n: usize, i: usize, scale: f64, v: &mut [f64], d: &mut [f64], e: &mut [f64]) -> f64
    requires { (0 < i) × (i < n) × Sized n v.old d.old e.old }
    ensures { (result, v.new, d.new, e.new) ≡ reflect n i scale (v.old, d.old, e.old) }
{
    let h = generate(i, scale, d, e);
    similarity(n, i, v, d, e);
    let f = over_h(i, h, d, e);
    lessen(i, f / (h + h), d, e);
    updates(n, i, v, d, e);
    h
}

fn skip(n: usize, i: usize, v: &mut [f64], d: &mut [f64], e: &mut [f64]) -> f64
    requires { (0 < i) × (i < n) × Sized n v.old d.old e.old }
    ensures { (result, v.new, d.new, e.new) ≡ skip n i (v.old, d.old, e.old) }
{
    e[i] = d[i - 1];
    skip_row(n, i, v, d);
    0.0
}

fn reduce(n: usize, i: usize, scale: f64, v: &mut [f64], d: &mut [f64], e: &mut [f64]) -> f64
    requires { (0 < i) × (i < n) × Sized n v.old d.old e.old }
    ensures { (result, v.new, d.new, e.new) ≡ reduce n i scale (v.old, d.old, e.old) }
{
    if scale == 0.0 {
        skip(n, i, v, d, e)
    } else {
        reflect(n, i, scale, v, d, e)
    }
}

fn householder(n: usize, i: usize, v: &mut [f64], d: &mut [f64], e: &mut [f64])
    requires { (0 < i) × (i < n) × Sized n v.old d.old e.old }
    ensures { (v.new, d.new, e.new) ≡ householder n i (v.old, d.old, e.old) }
{
    let scale = scale_of(i, d);
    let h = reduce(n, i, scale, v, d, e);
    d[i] = h;
}

pub fn reduction(n: usize, v: &mut [f64], d: &mut [f64], e: &mut [f64])
    requires { (0 < n) × Sized n v.old d.old e.old }
    ensures { (v.new, d.new, e.new) ≡ reduction n (v.old, d.old, e.old) }
{
    for i in (1..n).rev() {
        householder(n, i, v, d, e);
    }
}
