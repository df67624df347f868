// The columns that one transformation of tred2's accumulation turns. Each is turned by its own product with column m, which none of them changes: four products are
// summed side by side, each in its own order, since one alone waits for its own last addition.
ghost use Rattle.std.specs.Prelude.{◌≡◌, ◌+◌, ◌*◌, ◌<◌, ◌≤◌, length};
ghost use Rattle.grid.specs.Loop.{upto};
ghost use Rattle.eigen_tred2_definition.specs.Tred2.{column_over, take_off, turn_columns};
ghost use Rattle.eigen_tred2_definition.specs.Tred2Steps.{turn_column_step};
ghost use Rattle.eigen_tred2.specs.Columns.{dots};

use grid::{at, put};

pub fn column_over(n: usize, m: usize, h: f64, v: &[f64], d: &mut [f64])
    requires { (m < n) × (length v.now ≡ n * n) × (length d.old ≡ n) }
    ensures { d.new ≡ column_over n m h v.now d.old }
{
    for k in 0..m {
        d[k] = at(v, n, n, k, m) / h;
    }
}

// The products of N columns, from j on, with column m.
fn dots<const N: usize>(n: usize, m: usize, j: usize, v: &[f64]) -> [f64; N]
    requires { (m < n) × (j + N ≤ n) × (length v.now ≡ n * n) }
    ensures { result ≡ dots n m j v.now N }
{
    let mut g = [0.0; N];
    for k in 0..m {
        let x = at(v, n, n, k, m);
        for c in 0..N {
            g[c] += x * at(v, n, n, k, j + c);
        }
    }
    g
}

fn take_off(n: usize, m: usize, j: usize, g: f64, v: &mut [f64], d: &[f64])
    requires { (m < n) × (j < n) × (length v.old ≡ n * n) × (length d.now ≡ n) }
    ensures { v.new ≡ take_off n m j g d.now v.old }
{
    for k in 0..m {
        put(v, n, n, k, j, at(v, n, n, k, j) - g * d[k]);
    }
}

// N columns from j on.
fn turn<const N: usize>(n: usize, m: usize, j: usize, v: &mut [f64], d: &[f64])
    requires { (m < n) × (j + N ≤ m) × (length v.old ≡ n * n) × (length d.now ≡ n) }
    ensures { v.new ≡ upto (turn_column_step n m d.now) j (j + N) v.old }
{
    let g: [f64; N] = dots(n, m, j, v);
    for c in 0..N {
        take_off(n, m, j + c, g[c], v, d);
    }
}

// By fours, and what is left one by one.
pub fn turn_columns(n: usize, m: usize, v: &mut [f64], d: &[f64])
    requires { (m < n) × (length v.old ≡ n * n) × (length d.now ≡ n) }
    ensures { v.new ≡ turn_columns n m d.now v.old }
{
    for q in 0..m / 4 {
        turn::<4>(n, m, q * 4, v, d);
    }
    for j in m / 4 * 4..m {
        turn::<1>(n, m, j, v, d);
    }
}
