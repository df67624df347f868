// The order of document 000's `sort_svd_descending`, by counting.
ghost use Rattle.std.specs.Prelude.{◌≡◌, ℕ, ◌+◌, ◌≤◌, ◌<◌, length, count_by};
ghost use Rattle.std.specs.List.{range_with_len};
ghost use Rattle.grid.specs.Real.{at};
ghost use Rattle.svd_sort_svd_descending.specs.Order.{ahead};
ghost use Rattle.svd_sort_svd_descending.specs.Rank.{noted};

use grid::LARGEST;

// Whether column j comes before column k: its value is the greater, or neither is and j is the lower.
fn ahead(w: &[f64], from: usize, j: usize, k: usize) -> bool
    requires { (from + j < length w.now) × (from + k < length w.now) }
    ensures { result ≡ ahead (λ (i : ℕ). at w.now (from + i)) j k }
{
    let sj = w[from + j];
    let sk = w[from + k];
    sk < sj || !(sj < sk) && j < k
}

// The place of column k: how many come before it.
fn rank(w: &[f64], from: usize, r: usize, k: usize) -> usize
    requires { (k < r) × (from + r ≤ length w.now) }
    ensures { result ≡ count_by (λ (j : ℕ). ahead (λ (i : ℕ). at w.now (from + i)) j k) (range_with_len 0 r) }
{
    (0..r).filter(|j| ahead(w, from, *j, k)).count()
}

// Notes each column at its place.
pub fn note(w: &[f64], from: usize, r: usize, o: &mut [usize; LARGEST])
    requires { (r ≤ 256) × (from + r ≤ length w.now) }
    ensures { o.new ≡ noted (λ (i : ℕ). at w.now (from + i)) r o.old }
{
    for k in 0..r {
        let p = rank(w, from, r, k);
        o[p] = k;
    }
}
