// The entries of the covariances (`covariance`), behind the checks: each that of two bands of samples, worked out exactly in whole numbers and stored.
ghost use Rattle.std.specs.Prelude.{◌≡◌, length, ◌*◌, ◌<◌, ◌≤◌};
ghost use Rattle.answers.specs.Refusals.{verdict};
ghost use Rattle.covariance.specs.MatrixEntries.{band, whole, computed};
ghost use Rattle.covariance.specs.StoredEntries.{Totals, Above, stored};

use crate::sample_sums::{products, total};
use crate::whole_numbers::{float_of, is_over, minus, signed, times};
use answers::refusal::Refusal;
use grid::{LARGEST, entry, fill, put_entry};

// Band j.
pub fn band(samples: &[i16], n: usize, count: usize, j: usize) -> &[i16]
    requires { (j < n) × (length samples.now ≡ n * count) }
    ensures value { result.now ≡ band samples.now count j }
    ensures long { length result.now ≡ count }
{
    let start = j * count;
    &samples[start..start + count]
}

// The sums of all bands.
fn totals(samples: &[i16], n: usize, count: usize, sums: &mut [i64])
    requires { (n ≤ length sums.old) × (count ≤ 65536) × (length samples.now ≡ n * count) }
    ensures { Totals n count samples.now sums.new }
{
    for j in 0..n {
        sums[j] = total(count, band(samples, n, count, j));
    }
}

// The entry of bands x and y.
fn whole(samples: &[i16], sums: &[i64], n: usize, count: usize, x: usize, y: usize) -> i64
    requires { (x < n) × (y < n) × (count ≤ 65536) × (length samples.now ≡ n * count) × (n ≤ length sums.now) × Totals n count samples.now sums.now }
    ensures { result ≡ whole samples.now count x y }
{
    let a = band(samples, n, count, x);
    let b = band(samples, n, count, y);
    let p = products(count, a, b);
    minus(times(signed(count as u64), p), times(sums[x], sums[y]))
}

// The entry of row x and column y. Left of the diagonal it is the mirror image of one that stands there already.
fn cell(
    n: usize,
    count: usize,
    samples: &[i16],
    sums: &[i64],
    x: usize,
    y: usize,
    matrix: &mut [f64],
) -> Result<(), Refusal>
    requires { (x < n) × (y < n) × (n ≤ 256) × (count ≤ 65536) × (length samples.now ≡ n * count) × (n ≤ length sums.now) × Totals n count samples.now sums.now × (length matrix.old ≡ n * n) × Above n count samples.now x y matrix.old }
    ensures { (verdict result, matrix.new) ≡ stored n count samples.now x y matrix.old }
{
    if y < x {
        put_entry(matrix, n, n, x, y, entry(matrix, n, n, y, x));
        return Ok(());
    }
    let z = whole(samples, sums, n, count, x, y);
    if is_over(z) {
        fill(matrix);
        return Err(Refusal::EntryOver(x * n + y));
    }
    put_entry(matrix, n, n, x, y, float_of(z));
    Ok(())
}

// The entries row by row, up to the first that is over 2^53.
fn entries(
    n: usize,
    count: usize,
    samples: &[i16],
    sums: &[i64],
    matrix: &mut [f64],
) -> Result<(), Refusal>
    requires { (n ≤ 256) × (count ≤ 65536) × (length samples.now ≡ n * count) × (n ≤ length sums.now) × Totals n count samples.now sums.now × (length matrix.old ≡ n * n) }
    ensures { (verdict result, matrix.new) ≡ computed n count samples.now matrix.old }
{
    for k in 0..n * n {
        cell(n, count, samples, sums, k / n, k % n, matrix)?;
    }
    Ok(())
}

pub fn compute(n: usize, count: usize, samples: &[i16], matrix: &mut [f64]) -> Result<(), Refusal>
    requires { (n ≤ 256) × (count ≤ 65536) × (length samples.now ≡ n * count) × (length matrix.old ≡ n * n) }
    ensures { (verdict result, matrix.new) ≡ computed n count samples.now matrix.old }
{
    let mut sums = [0i64; LARGEST];
    totals(samples, n, count, &mut sums);
    entries(n, count, samples, &sums, matrix)
}
