// The sums of n bands of samples, worked out exactly in whole numbers.
#![tactic(auto)]

ghost use Rattle.std.specs.Prelude.{◌≡◌, ◌*◌, ◌≤◌, length};
ghost use Rattle.answers.specs.Refusals.{verdict};
ghost use Rattle.covariance_sums.specs.Sums.{sum_checks, sums_of, sums};

use answers::checks::lengths;
use answers::refusal::Refusal;
use answers::{Answer, done};
use covariance::matrix_entries::band;
use covariance::sample_sums::total;
use covariance::sizes;
use covariance::whole_numbers::float_of;

fn checks(n: usize, count: usize, samples: usize, out: usize) -> Result<(), Refusal>
    ensures { verdict result ≡ sum_checks n count samples out }
{
    sizes(n, count)?;
    lengths(&[(samples, n * count), (out, n)])
}

fn put_sums(n: usize, count: usize, samples: &[i16], out: &mut [f64])
    requires { (n ≤ 256) × (count ≤ 65536) × (length samples.now ≡ n * count) × (length out.old ≡ n) }
    ensures { out.new ≡ sums_of n count samples.now }
{
    for j in 0..n {
        out[j] = float_of(total(count, band(samples, n, count, j)));
    }
}

pub fn sums(n: usize, count: usize, samples: &[i16], out: &mut [f64]) -> Answer
    ensures { (result, out.new) ≡ sums n count samples.now out.old }
{
    match checks(n, count, samples.len(), out.len()) {
        Ok(()) => {
            put_sums(n, count, samples, out);
            done(0)
        }
        Err(r) => r.into(),
    }
}
