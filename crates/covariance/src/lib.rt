// The covariances of n bands of samples, each multiplied by the square of how many samples a band has, worked out exactly in whole numbers.
#![tactic(auto)]

pub mod whole_numbers; // Whole numbers with a sign, exact in 64 bits, and the test against 2^53
pub mod sample_sums; // Sums of samples and of products of samples, worked out exactly in whole numbers
pub mod matrix_entries; // The entries of the covariances (`covariance`), behind the checks: each that of two bands of samples, worked out exactly in whole numbers and stored

ghost use Rattle.std.specs.Prelude.{◌≡◌};
ghost use Rattle.answers.specs.Answers.{done};
ghost use Rattle.answers.specs.Refusals.{verdict};
ghost use Rattle.covariance.specs.Covariance.{band_checks, cov_checks, covariance};

use crate::matrix_entries::compute;
use answers::Answer;
use answers::checks::lengths;
use answers::refusal::Refusal;
use grid::LARGEST;

// A band has at most so many samples.
const MOST: usize = 65536;

// n bands of count samples.
pub fn sizes(n: usize, count: usize) -> Result<(), Refusal>
    ensures { verdict result ≡ band_checks n count (done 0) }
{
    if n > LARGEST {
        return Err(Refusal::Dimension);
    }
    if count < 1 || count > MOST {
        return Err(Refusal::Samples);
    }
    Ok(())
}

fn checks(n: usize, count: usize, samples: usize, matrix: usize) -> Result<(), Refusal>
    ensures { verdict result ≡ cov_checks n count samples matrix }
{
    sizes(n, count)?;
    lengths(&[(samples, n * count), (matrix, n * n)])
}

pub fn covariance(n: usize, count: usize, samples: &[i16], matrix: &mut [f64]) -> Answer
    ensures { (result, matrix.new) ≡ covariance n count samples.now matrix.old }
{
    match checks(n, count, samples.len(), matrix.len()) {
        Ok(()) => compute(n, count, samples, matrix).into(),
        Err(r) => r.into(),
    }
}
