// The checks of a call of `lanczos`: sizes, limit, edition and lengths.
ghost use Rattle.std.specs.Prelude.{◌≡◌, ◌≤◌};
ghost use Rattle.answers.specs.Refusals.{verdict};
ghost use Rattle.lanczos.specs.Checks.{size, work_length, checks};

use answers::checks::{edition_good, lengths, limit_good};
use answers::least;
use answers::refusal::Refusal;
use grid::LARGEST;

// s, how many steps at the most.
pub fn size(n: usize, k: usize) -> usize
    requires { k ≤ 256 }
    ensures { result ≡ size n k }
{
    least(2 * k + 20, n)
}

fn work_length(n: usize, k: usize) -> usize
    requires { (n ≤ 256) × (k ≤ 256) }
    ensures { result ≡ work_length n k }
{
    let s = size(n, k);
    s * n + 2 * n + 2 * s * s + 4 * s
}

pub fn checks(
    n: usize,
    k: usize,
    limit: usize,
    edition: usize,
    a: usize,
    b: usize,
    work: usize,
    x: usize,
) -> Result<(), Refusal>
    ensures { verdict result ≡ checks n k limit edition a b work x }
{
    if n > LARGEST {
        return Err(Refusal::Dimension);
    }
    if !limit_good(limit) {
        return Err(Refusal::Limit);
    }
    if !edition_good(edition) {
        return Err(Refusal::Edition);
    }
    if n == 0 {
        return Err(Refusal::NoBand);
    }
    if k > n {
        return Err(Refusal::Pairs);
    }
    lengths(&[
        (a, n * n),
        (b, n),
        (work, work_length(n, k)),
        (x, k + k * n),
    ])
}
