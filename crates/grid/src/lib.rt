// A matrix of f64, read and written by a call, so that each access asks one fact; and a vector's +0.0.
#![tactic(auto)]

ghost use Rattle.std.specs.Prelude.{◌≡◌, ◌*◌, ◌<◌, length};
ghost use Rattle.grid.specs.Real.{zeros};
ghost use Rattle.grid.specs.Cell.{at2, put2, entry, put_entry};

// No dimension is above this.
pub const LARGEST: usize = 256;

// 2^-52, the Rust's f64::EPSILON.
pub const EPSILON: f64 = 1.0 / 4503599627370496.0;

// Row i, column j of the matrix v, which stands column by column.
pub fn at(v: &[f64], rows: usize, cols: usize, i: usize, j: usize) -> f64
    requires { (i < rows) × (j < cols) × (length v.now ≡ cols * rows) }
    ensures { result ≡ at2 v.now rows i j }
{
    v[j * rows + i]
}

pub fn put(v: &mut [f64], rows: usize, cols: usize, i: usize, j: usize, x: f64)
    requires { (i < rows) × (j < cols) × (length v.old ≡ cols * rows) }
    ensures { v.new ≡ put2 v.old rows i j x }
{
    v[j * rows + i] = x;
}

// Row i, column j of the matrix a, which stands row by row. The two layouts have names of their own, since a call that takes one for the other would read another number.
pub fn entry(a: &[f64], rows: usize, cols: usize, i: usize, j: usize) -> f64
    requires { (i < rows) × (j < cols) × (length a.now ≡ rows * cols) }
    ensures { result ≡ entry a.now cols i j }
{
    a[i * cols + j]
}

pub fn put_entry(a: &mut [f64], rows: usize, cols: usize, i: usize, j: usize, x: f64)
    requires { (i < rows) × (j < cols) × (length a.old ≡ rows * cols) }
    ensures { a.new ≡ put_entry a.old cols i j x }
{
    a[i * cols + j] = x;
}

// All of d becomes +0.0.
pub fn fill(d: &mut [f64])
    ensures { d.new ≡ zeros (length d.old) }
{
    d.fill(0.0);
}
