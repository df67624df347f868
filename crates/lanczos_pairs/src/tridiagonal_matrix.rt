// The tridiagonal matrix of document 000's Lanczos.
ghost use Rattle.std.specs.Prelude.{◌≡◌, ◌*◌, ◌<◌, ◌≤◌, length};
ghost use Rattle.lanczos_pairs.specs.TridiagonalMatrix.{tri};
ghost use Rattle.lanczos_pairs.specs.InPlaceLaws.{tri_step};

use grid::put_entry;
use lanczos_steps::Tridiagonal;

// One row.
fn tri_row(m: usize, i: usize, x: &Tridiagonal, t: &mut [f64])
    requires { (i < m) × (m ≤ 256) × (length t.old ≡ m * m) }
    ensures { t.new ≡ tri_step m x.now.alphas x.now.betas i t.old }
{
    put_entry(t, m, m, i, i, x.alphas[i]);
    if i + 1 < m {
        let beta = x.betas[i];
        put_entry(t, m, m, i, i + 1, beta);
        put_entry(t, m, m, i + 1, i, beta);
    }
}

pub fn tri(m: usize, x: &Tridiagonal, t: &mut [f64])
    requires { (m ≤ 256) × (length t.old ≡ m * m) }
    ensures { t.new ≡ tri m x.now.alphas x.now.betas t.old }
{
    for i in 0..m {
        tri_row(m, i, x, t);
    }
}
