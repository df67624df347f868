// A matrix by a vector, where the matrix may be symmetric: then its rows are its columns, and the product is its rows added up
// (`weighted_rows`), each number of it in its own order. Else four rows of dots go side by side (`matvec`).
ghost use Rattle.std.specs.Prelude.{◌≡◌, true, ◌↔◌, ℕ, ◌+◌, ◌*◌, ◌<◌, ◌≤◌, length};
ghost use Rattle.matvec.specs.Matvec.{product};
ghost use Rattle.matvec.specs.Symmetry.{Fours, Symmetric};

use crate::dots;
use crate::weighted_rows::sum;
use grid::entry;

// ---- whether a matrix is symmetric

// Whether x and y are the same number: 0 and -0 are two, all NaNs are one. No operator or method says that.
fn same(x: f64, y: f64) -> bool
    ensures { (result ≡ true) ↔ (x ≡ y) }
{
    if x.is_nan() || y.is_nan() {
        return x.is_nan() && y.is_nan();
    }
    x.to_bits() == y.to_bits()
}

// Whether number j of rows i to i + 3 is number i to i + 3 of row j: four at a time, since what stands below each other is far apart.
fn four_same(n: usize, i: usize, j: usize, a: &[f64]) -> bool
    requires { (n ≤ 256) × (i + 3 < n) × (j < n) × (length a.now ≡ n * n) }
    ensures { (result ≡ true) ↔ Fours n a.now i j }
{
    let mut all = true;
    for k in 0..4 {
        all &= same(entry(a, n, n, i + k, j), entry(a, n, n, j, i + k));
    }
    all
}

// Whether rows i to i + 3 left of the diagonal are the columns above it.
fn rows_same(n: usize, i: usize, a: &[f64]) -> bool
    requires { (n ≤ 256) × (i + 3 < n) × (length a.now ≡ n * n) }
    ensures { (result ≡ true) ↔ ((j : ℕ) → j < i + 3 → Fours n a.now i j) }
{
    for j in 0..i + 3 {
        if !four_same(n, i, j, a) {
            return false;
        }
    }
    true
}

// Whether the n by n matrix a has four rows or more and is symmetric. Below four rows the dots are as good.
pub fn is_symmetric(n: usize, a: &[f64]) -> bool
    requires { (n ≤ 256) × (length a.now ≡ n * n) }
    ensures { (result ≡ true) ↔ ((4 ≤ n) × Symmetric n a.now) }
{
    if n < 4 {
        return false;
    }
    for i in (0..n - 4).step_by(4) {
        if !rows_same(n, i, a) {
            return false;
        }
    }
    rows_same(n, n - 4, a)
}

// ---- the product

// The n by n matrix a by v; symmetric says that a is symmetric.
pub fn product(n: usize, symmetric: bool, a: &[f64], v: &[f64], w: &mut [f64])
    requires { (n ≤ 256) × (symmetric ≡ true → Symmetric n a.now) × (length a.now ≡ n * n) × (length v.now ≡ n) × (length w.old ≡ n) }
    ensures { w.new ≡ product n a.now v.now }
{
    if symmetric {
        sum(n, n, n, a, v, w);
    } else {
        dots(n, a, v, w);
    }
}
