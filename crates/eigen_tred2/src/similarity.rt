// The similarity transformation of one step of tred2's reduction, by pairs of columns.
ghost use Rattle.std.specs.Prelude.{◌≡◌, ◌+◌, ◌<◌};
ghost use Rattle.grid.specs.CellLaws.{Sized};
ghost use Rattle.eigen_tred2_definition.specs.Tred2.{similar_column, similarity};
ghost use Rattle.eigen_tred2_definition.specs.Tred2Steps.{similarity_step};
ghost use Rattle.eigen_tred2.specs.ColumnPairs.{pair_step};

use crate::column_pairs::{Pair, similar_two, sums};
use grid::{at, put};

fn similar_column(
    n: usize,
    i: usize,
    j: usize,
    f: f64,
    g0: f64,
    v: &[f64],
    d: &[f64],
    e: &mut [f64],
) -> f64
    requires { (j < i) × (i < n) × Sized n v.now d.now e.old }
    ensures { (result, e.new) ≡ similar_column n i j f v.now d.now (g0, e.old) }
{
    let mut g = g0;
    for k in j + 1..i {
        let x = at(v, n, n, k, j);
        g += x * d[k];
        e[k] += x * f;
    }
    g
}

fn similar_one(n: usize, i: usize, j: usize, v: &mut [f64], d: &[f64], e: &mut [f64])
    requires { (j < i) × (i < n) × Sized n v.old d.now e.old }
    ensures { (v.new, e.new) ≡ similarity_step n i d.now j (v.old, e.old) }
{
    let f = d[j];
    put(v, n, n, j, i, f);
    let g0 = e[j] + at(v, n, n, j, j) * f;
    let g = similar_column(n, i, j, f, g0, v, d, e);
    e[j] = g;
}

fn similar_pair(n: usize, i: usize, j: usize, v: &mut [f64], d: &[f64], e: &mut [f64])
    requires { (j + 1 < i) × (i < n) × Sized n v.old d.now e.old }
    ensures { (v.new, e.new) ≡ pair_step n i d.now j (v.old, e.old) }
{
    let f = Pair {
        a: d[j],
        b: d[j + 1],
    };
    put(v, n, n, j, i, f.a);
    put(v, n, n, j + 1, i, f.b);
    let g0 = sums(n, j, f, v, e);
    let g = similar_two(n, i, j, f, g0, v, d, e);
    e[j] = g.a;
    e[j + 1] = g.b;
}

// By pairs, and the last of an odd number alone.
pub fn similarity(n: usize, i: usize, v: &mut [f64], d: &[f64], e: &mut [f64])
    requires { (i < n) × Sized n v.old d.now e.old }
    ensures { (v.new, e.new) ≡ similarity n i d.now (v.old, e.old) }
{
    for q in 0..i / 2 {
        similar_pair(n, i, q * 2, v, d, e);
    }
    for j in i / 2 * 2..i {
        similar_one(n, i, j, v, d, e);
    }
}
