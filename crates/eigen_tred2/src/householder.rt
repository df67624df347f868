// The Householder vector of one step of document 000's tred2, operation for operation.
ghost use Rattle.std.specs.Prelude.{◌≡◌, ◌<◌, ◌≤◌, length};
ghost use Rattle.eigen_tred2_definition.specs.Tred2.{scale_of, over_scale, clear, against, generate};

use leaves::magnitude;
use root::root;

pub fn scale_of(i: usize, d: &[f64]) -> f64
    requires { i ≤ length d.now }
    ensures { result ≡ scale_of i d.now }
{
    let mut scale = 0.0;
    for x in &d[..i] {
        scale += magnitude(*x);
    }
    scale
}

fn over_scale(i: usize, scale: f64, d: &mut [f64]) -> f64
    requires { i ≤ length d.old }
    ensures { (result, d.new) ≡ over_scale i scale d.old }
{
    let mut h = 0.0;
    for x in &mut d[..i] {
        *x /= scale;
        h += *x * *x;
    }
    h
}

fn clear(i: usize, e: &mut [f64])
    requires { i ≤ length e.old }
    ensures { e.new ≡ clear i e.old }
{
    e[..i].fill(0.0);
}

// g with the sign that f has not, so that f - g loses no digits.
fn against(f: f64, g: f64) -> f64
    ensures { result ≡ against f g }
{
    if f > 0.0 { -g } else { g }
}

// The Householder vector; h is returned.
pub fn generate(i: usize, scale: f64, d: &mut [f64], e: &mut [f64]) -> f64
    requires { (0 < i) × (i < length d.old) × (i < length e.old) }
    ensures { (result, d.new, e.new) ≡ generate i scale d.old e.old }
{
    let h = over_scale(i, scale, d);
    let f = d[i - 1];
    let g = against(f, root(h));
    e[i] = scale * g;
    d[i - 1] = f - g;
    clear(i, e);
    h - f * g
}
