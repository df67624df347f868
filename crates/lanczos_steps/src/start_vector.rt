// The first vector of a Lanczos run.
ghost use Rattle.std.specs.Prelude.{◌≡◌, length, pos};
ghost use Rattle.std.specs.Float.{binary64};
ghost use Rattle.std.specs.Float.Ieee.{of_int};
ghost use Rattle.grid.specs.Real.{one64, ◌⊘◌};
ghost use Rattle.grid.specs.Table.{table};
ghost use Rattle.root.specs.Root as Root;
ghost use Rattle.lanczos_steps.specs.StartVector.{started};

use gram_schmidt::normalise::over;
use grid::EPSILON;
use root::root;

// 1 / root n throughout.
fn level(to: &mut [f64])
    ensures { to.new ≡ table (λ i. one64 ⊘ Root.root (of_int binary64 (pos (length to.old)))) (length to.old) }
{
    let x = 1.0 / root(std::num::nearest_u64_to_f64(to.len() as u64));
    to.fill(x);
}

// b, whose norm is `by`, over that, where it is above EPSILON.
pub fn first(by: f64, b: &[f64], v: &mut [f64])
    requires { length b.now ≡ length v.old }
    ensures { v.new ≡ started (length v.old) by b.now }
{
    if by > EPSILON {
        v.copy_from_slice(b);
        over(by, v);
    } else {
        level(v);
    }
}
