// Whether g is at most EPSILON times the root of a * b, with no root where that is clear. The root is monotone, and so is a rounded product: with a number u whose square is
// below a * b the root is no smaller than u, with one whose square is above it no greater. Two numbers close around g / EPSILON settle all but a sliver.
ghost use Rattle.std.specs.Prelude.{◌≡◌};
ghost use Rattle.std.specs.Float.Ieee.{le};
ghost use Rattle.grid.specs.Real.{epsilon, ◌⊗◌};
ghost use Rattle.root.specs.Root.{root};
ghost use Rattle.svd_jacobi_svd_tall.specs.SkipTest.{both, surely, surely_not};

use grid::EPSILON;
use leaves::is_finite;
use root::root;

// Both finite and above zero. Here and below no test waits for another.
fn both(u: f64, p: f64) -> bool
    ensures { result ≡ both u p }
{
    (0.0 < u) & is_finite(u) & (0.0 < p) & is_finite(p)
}

fn surely(g: f64, u: f64, p: f64) -> bool
    ensures { result ≡ surely g u p }
{
    both(u, p) & (g <= EPSILON * u) & (u * u < p)
}

fn surely_not(g: f64, u: f64, p: f64) -> bool
    ensures { result ≡ surely_not g u p }
{
    both(u, p) & (EPSILON * u < g) & (p < u * u)
}

// The numbers are g * (2^52 - 1) and g * (2^52 + 1).
pub fn at_most(g: f64, a: f64, b: f64) -> bool
    ensures { result ≡ le g (epsilon ⊗ root (a ⊗ b)) }
{
    let p = a * b;
    let under = g * 4503599627370495.0;
    if surely_not(g, under, p) {
        return false;
    }
    let over = g * 4503599627370497.0;
    if surely(g, over, p) {
        return true;
    }
    g <= EPSILON * root(p)
}
