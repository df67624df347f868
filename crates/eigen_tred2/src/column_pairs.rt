// Two columns of the similarity transformation (`similarity`) side by side in one walk: each sum has its own order, and each element of e
// takes the share of the first column before that of the second.
ghost use Rattle.std.specs.Prelude.{◌≡◌, ◌+◌, ◌*◌, ◌<◌, length};
ghost use Rattle.grid.specs.CellLaws.{Sized};
ghost use Rattle.eigen_tred2.specs.ColumnPairs.{sums, two_columns};

use grid::at;

// A number of column j and one of column j + 1, by name: the two columns take different parts.
#[derive(Clone, Copy)]
pub struct Pair {
    pub a: f64,
    pub b: f64,
}

// Both sums down to row j + 1.
pub fn sums(n: usize, j: usize, f: Pair, v: &[f64], e: &[f64]) -> Pair
    requires { (j + 1 < n) × (length v.now ≡ n * n) × (length e.now ≡ n) }
    ensures { result ≡ sums n j f v.now e.now }
{
    let x = at(v, n, n, j + 1, j);
    Pair {
        a: e[j] + at(v, n, n, j, j) * f.a + x * f.b,
        b: e[j + 1] + x * f.a + at(v, n, n, j + 1, j + 1) * f.b,
    }
}

// Columns j and j + 1 from row j + 2 on.
pub fn similar_two(
    n: usize,
    i: usize,
    j: usize,
    f: Pair,
    g0: Pair,
    v: &[f64],
    d: &[f64],
    e: &mut [f64],
) -> Pair
    requires { (j + 1 < i) × (i < n) × Sized n v.now d.now e.old }
    ensures { (result, e.new) ≡ two_columns n i j f v.now d.now (g0, e.old) }
{
    let mut g = g0;
    for k in j + 2..i {
        let x = at(v, n, n, k, j);
        let y = at(v, n, n, k, j + 1);
        let z = d[k];
        g.a += x * z;
        g.b += y * z;
        e[k] = e[k] + x * f.a + y * f.b;
    }
    g
}
