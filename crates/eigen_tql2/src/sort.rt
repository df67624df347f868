// The sort at the end of `tql2`: the values ascending, each column with its value.
ghost use Rattle.std.specs.Prelude.{◌≡◌, ◌*◌, ◌<◌, length};
ghost use Rattle.eigen_tql2.specs.Sort.{least_from, swapped, sort_step, sorted};
ghost use Rattle.eigen_tql2.specs.SortSteps.{better};

// The least number so far, and where it is.
#[derive(Clone, Copy)]
pub struct Best {
    pub k: usize,
    pub p: f64,
}

fn better(d: &[f64], j: usize, b: Best) -> Best
    requires { j < length d.now }
    ensures { result ≡ better d.now j b }
{
    let x = d[j];
    if x < b.p { Best { k: j, p: x } } else { b }
}

// The least of d from i on.
fn least_from(n: usize, i: usize, d: &[f64]) -> Best
    requires { (i < n) × (length d.now ≡ n) }
    ensures { result ≡ least_from n i d.now }
{
    let mut b = Best { k: i, p: d[i] };
    for j in i + 1..n {
        b = better(d, j, b);
    }
    b
}

// Columns i and k of v change places.
fn swap(n: usize, i: usize, k: usize, v: &mut [f64])
    requires { (i < n) × (k < n) × (length v.old ≡ n * n) }
    ensures { v.new ≡ swapped n i k v.old }
{
    for row in 0..n {
        v.swap(i * n + row, k * n + row);
    }
}

// The least value from i on comes to i, and its column with it.
fn sort_at(n: usize, i: usize, v: &mut [f64], d: &mut [f64])
    requires { (i < n) × (length v.old ≡ n * n) × (length d.old ≡ n) }
    ensures { (v.new, d.new) ≡ sort_step n i (v.old, d.old) }
{
    let k = least_from(n, i, d).k;
    if k != i {
        d.swap(k, i);
        swap(n, i, k, v);
    }
}

// The values in ascending order, the columns moving with them.
pub fn sort(n: usize, v: &mut [f64], d: &mut [f64])
    requires { (0 < n) × (length v.old ≡ n * n) × (length d.old ≡ n) }
    ensures { (v.new, d.new) ≡ sorted n (v.old, d.old) }
{
    for i in 0..n - 1 {
        sort_at(n, i, v, d);
    }
}
