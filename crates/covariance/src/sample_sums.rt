// Sums of samples and of products of samples, worked out exactly in whole numbers.
ghost use Rattle.std.specs.Prelude.{◌≡◌, length, ◌+◌, ◌*◌, ◌/◌, ◌<◌, ◌≤◌};
ghost use Rattle.covariance.specs.WholeNumbers.{Range};
ghost use Rattle.covariance.specs.Lifts.{Lift, Lifts};
ghost use Rattle.covariance.specs.SampleSums.{sample_at, total, products};

use crate::whole_numbers::{minus, plus, signed, times};

fn wide(x: i16) -> i64
    ensures { (result ≡ x) × Range 32767 32768 x }
{
    x as i64
}

// Sample k of a band.
fn sample(a: &[i16], k: usize) -> i64
    requires { k < length a.now }
    ensures { (result ≡ sample_at a.now k) × Range 32767 32768 result }
{
    wide(a[k])
}

// The sum of a band.
pub fn total(count: usize, a: &[i16]) -> i64
    requires { (count ≤ 65536) × (length a.now ≡ count) }
    ensures { (result ≡ total count a.now) × Range (count * 32767) (count * 32768) result }
{
    let mut s = 0i64;
    for k in 0..count {
        s = plus(s, sample(a, k));
    }
    s
}

// The product of samples k of two bands, lifted by 2^30 - 2^15, so that it is not below 0.
fn lifted(a: &[i16], b: &[i16], k: usize) -> u32
    requires { (k < length a.now) × (k < length b.now) }
    ensures { Lift a.now b.now k result }
{
    plus(times(sample(a, k), sample(b, k)), 1073709056) as u32
}

// s, the lifted sum up to pair `from`, goes on to pair `to`, at most 128 pairs further: by their upper bits and their lower 8.
fn pairs(a: &[i16], b: &[i16], from: usize, to: usize, s: u64) -> u64
    requires { (from ≤ to) × (to ≤ from + 128) × (to ≤ 32768) × (to * 2 ≤ length a.now) × (to * 2 ≤ length b.now) × Lifts a.now b.now (from * 2) s }
    ensures { Lifts a.now b.now (to * 2) result }
{
    let mut upper = 0u32;
    let mut lower = 0u32;
    for k in from..to {
        let q = lifted(a, b, k * 2) + lifted(a, b, k * 2 + 1);
        upper += q / 256;
        lower += q % 256;
    }
    s + (upper as u64 * 256 + lower as u64)
}

// The lifted sum of as many times 256 products as there are.
fn blocks(count: usize, a: &[i16], b: &[i16]) -> u64
    requires { (count ≤ 65536) × (length a.now ≡ count) × (length b.now ≡ count) }
    ensures { Lifts a.now b.now (count / 256 * 256) result }
{
    let mut s = 0u64;
    for j in 0..count / 256 {
        s = pairs(a, b, j * 128, j * 128 + 128, s);
    }
    s
}

// The last product, if their number is odd.
fn last(count: usize, a: &[i16], b: &[i16], s: u64) -> u64
    requires { (count ≤ 65536) × (length a.now ≡ count) × (length b.now ≡ count) × Lifts a.now b.now (count / 2 * 2) s }
    ensures { Lifts a.now b.now count result }
{
    if count % 2 == 0 {
        return s;
    }
    s + lifted(a, b, count - 1) as u64
}

fn lifts(count: usize, a: &[i16], b: &[i16]) -> u64
    requires { (count ≤ 65536) × (length a.now ≡ count) × (length b.now ≡ count) }
    ensures { Lifts a.now b.now count result }
{
    let s = blocks(count, a, b);
    let t = pairs(a, b, count / 256 * 128, count / 2, s);
    last(count, a, b, t)
}

// The sum of the products of two bands.
pub fn products(count: usize, a: &[i16], b: &[i16]) -> i64
    requires { (count ≤ 65536) × (length a.now ≡ count) × (length b.now ≡ count) }
    ensures { (result ≡ products count a.now b.now) × Range (count * 1073741824) (count * 1073741824) result }
{
    let s = lifts(count, a, b);
    minus(signed(s), signed(count as u64 * 1073709056))
}
