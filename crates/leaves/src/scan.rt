// The first number that is not finite, of a list, of a matrix, or on and below its diagonal.
ghost use Rattle.std.specs.Prelude.{◌≡◌, ◌++◌, ◌+◌, ◌*◌, ◌^◌, ◌≤◌, ◌<◌, length};
ghost use Rattle.leaves.specs.FiniteLaws.{all_finite};
ghost use Rattle.leaves.specs.Scan.{first_bad, lower_of, first_bad_lower, by_rows};
ghost use Rattle.leaves.specs.ScanLaws.{after, first_bad_of, behind, Room};

use crate::{Bad, Place, class_of, is_finite};

// What was found, counted behind so many other numbers.
pub fn behind(before: usize, b: Option<Bad>) -> Option<Bad>
    requires { Room before b }
    ensures { result ≡ behind before b }
{
    let bad = b?;
    Some(Bad {
        index: before + bad.index,
        ..bad
    })
}

// Whether all of d is finite: each number is looked at, with no branch on any, so that several are tested at once. The scans below ask this first, and walk only
// where there is something to find.
fn all_finite(d: &[f64]) -> bool
    ensures { result ≡ all_finite d.now }
{
    let mut all = true;
    for &x in d {
        all = all & is_finite(x);
    }
    all
}

fn walk(d: &[f64]) -> Option<Bad>
    ensures { result ≡ first_bad d.now }
{
    for (k, &x) in d.iter().enumerate() {
        if !is_finite(x) {
            return Some(Bad {
                index: k,
                class: class_of(x),
            });
        }
    }
    None
}

// The first number of d that is not finite.
pub fn first_bad(d: &[f64]) -> Option<Bad>
    ensures { result ≡ first_bad d.now }
{
    if all_finite(d) {
        return None;
    }
    walk(d)
}

// The first number that is not finite of d, or else of e, counted on behind those of d.
pub fn first_bad_of_both(d: &[f64], e: &[f64]) -> Option<Bad>
    ensures { result ≡ first_bad (d.now ++ e.now) }
{
    match first_bad(d) {
        Some(bad) => Some(bad),
        None => behind(d.len(), first_bad(e)),
    }
}

// The place after p, row by row, where n are in a row.
fn after(n: usize, p: Place) -> Place
    requires { (p.i + 1 < 2 ^ 64) × (p.j + 1 < 2 ^ 64) }
    ensures { result ≡ after n p }
{
    if p.j + 1 == n {
        return Place { i: p.i + 1, j: 0 };
    }
    Place { j: p.j + 1, ..p }
}

// What is read of the number x at p: what stands above the diagonal counts as 0.
fn lower_of(p: Place, x: f64) -> f64
    ensures { result ≡ lower_of p x }
{
    if p.j <= p.i { x } else { 0.0 }
}

fn walk_lower(n: usize, a: &[f64]) -> Option<Bad>
    ensures { result ≡ first_bad_lower n a.now }
{
    let mut p = Place { i: 0, j: 0 };
    for (k, &x) in a.iter().enumerate() {
        let y = lower_of(p, x);
        if !is_finite(y) {
            return Some(Bad {
                index: k,
                class: class_of(y),
            });
        }
        p = after(n, p);
    }
    None
}

// The first number that is not finite on and below the diagonal of the matrix a, which stands row by row with n in a row.
pub fn first_bad_lower(n: usize, a: &[f64]) -> Option<Bad>
    ensures { result ≡ first_bad_lower n a.now }
{
    if all_finite(a) {
        return None;
    }
    walk_lower(n, a)
}

// The first number that is not finite of the matrix v, which stands column by column, counted row by row.
fn first_bad_of(rows: usize, cols: usize, v: &[f64]) -> Option<Bad>
    requires { rows * cols ≤ length v.now }
    ensures { result ≡ first_bad_of rows cols v.now }
{
    let mut p = Place { i: 0, j: 0 };
    for k in 0..rows * cols {
        let x = v[p.j * rows + p.i];
        if !is_finite(x) {
            return Some(Bad {
                index: k,
                class: class_of(x),
            });
        }
        p = after(cols, p);
    }
    None
}

// The same of a matrix with that many columns, and as many rows as fill its length.
pub fn first_bad_cell(cols: usize, v: &[f64]) -> Option<Bad>
    ensures { result ≡ first_bad (by_rows cols v.now) }
{
    if all_finite(v) {
        return None;
    }
    if cols == 0 {
        return None;
    }
    first_bad_of(v.len() / cols, cols, v)
}
