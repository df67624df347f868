// A column over its norm, stored; or the refusal where that norm is not finite.
ghost use Rattle.std.specs.Prelude.{◌≡◌, ◌*◌, ◌<◌, length};
ghost use Rattle.gram_schmidt.specs.Unit.{over, normalised, put_column, finished};

use answers::{Answer, answered, done, refuse};
use grid::{EPSILON, fill, put_entry};
use leaves::{class_of, is_finite};

pub fn over(by: f64, c: &mut [f64])
    ensures { c.new ≡ over (length c.old) by c.old }
{
    for x in c.iter_mut() {
        *x /= by;
    }
}

fn normalise(by: f64, c: &mut [f64])
    ensures { c.new ≡ normalised (length c.old) by c.old }
{
    if by > EPSILON {
        over(by, c);
    } else {
        fill(c);
    }
}

fn put_column(m: usize, k: usize, j: usize, c: &[f64], q: &mut [f64])
    requires { (j < k) × (length q.old ≡ m * k) × (length c.now ≡ m) }
    ensures { q.new ≡ put_column m k j c.now q.old }
{
    for row in 0..m {
        put_entry(q, m, k, row, j, c[row]);
    }
}

// c, whose norm is `by`, becomes column j of q. A norm that is not finite decides by its class.
pub fn finish(m: usize, k: usize, j: usize, by: f64, c: &mut [f64], q: &mut [f64]) -> Answer
    requires { (j < k) × (length q.old ≡ m * k) × (length c.old ≡ m) }
    ensures { (result, q.new) ≡ finished m k j by c.old q.old }
{
    if is_finite(by) {
        normalise(by, c);
        put_column(m, k, j, c, q);
        return done(0);
    }
    refuse(answered(class_of(by), j, j, 0), q)
}
