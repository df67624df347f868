// The values of a run of one-sided Jacobi and its columns over them, on the work array w of `sweep`.
ghost use Rattle.std.specs.Prelude.{◌≡◌, ◌+◌, ◌≤◌, ◌<◌, length};
ghost use Rattle.svd_jacobi_svd_tall.specs.SweepLengths.{Sized};
ghost use Rattle.svd_jacobi_svd_tall.specs.SingularValues.{norm_sq, divided, normal_step, normalised};

use root::root;

fn norm_sq(w: &[f64], a: usize, rows: usize) -> f64
    requires { a + rows ≤ length w.now }
    ensures { result ≡ norm_sq a rows w.now }
{
    let mut sum = 0.0;
    for i in 0..rows {
        let x = w[a + i];
        sum += x * x;
    }
    sum
}

fn divide(w: &mut [f64], a: usize, rows: usize, norm: f64)
    requires { a + rows ≤ length w.old }
    ensures { w.new ≡ divided a rows norm w.old }
{
    for i in 0..rows {
        w[a + i] /= norm;
    }
}

// The norm of column j is its value. A column of norm 0 is not divided.
fn normalise_column(rows: usize, cols: usize, j: usize, w: &mut [f64])
    requires { (j < cols) × Sized rows cols w.old }
    ensures { w.new ≡ normal_step rows cols j w.old }
{
    let norm = root(norm_sq(w, j * rows, rows));
    w[rows * cols + cols * cols + j] = norm;
    if norm > 0.0 {
        divide(w, j * rows, rows, norm);
    }
}

pub fn normalise(rows: usize, cols: usize, w: &mut [f64])
    requires { Sized rows cols w.old }
    ensures { w.new ≡ normalised rows cols w.old }
{
    for j in 0..cols {
        normalise_column(rows, cols, j, w);
    }
}
