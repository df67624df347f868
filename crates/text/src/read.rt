// The reader of the program eigtext's input.
ghost use Rattle.std.specs.Prelude.{◌≡◌, true, cond, Some, None, ◌+◌, ◌*◌, ◌<◌, ◌≤◌};
ghost use Rattle.std.proofs.lemmas.List.Edits.{sets};
ghost use Rattle.grid.specs.Loop.{every};
ghost use Rattle.text.specs.Reading.{digit_at, group_at, word_at, table, words_read, reading, outcome};
ghost use Rattle.text.specs.Stores.{float_at};

use crate::write::put;
use crate::{Head, Reading, byte, read_head, separator, value};
use octets::float;

// The number whose sixteen hex digits start at `at`, where they do.
fn word(t: &[u8], at: usize) -> Option<u64>
    requires { at ≤ 65536 }
    ensures { result ≡ cond (every (digit_at t.now at) 16) (Some (word_at t.now at)) None }
{
    let mut w: u64 = 0;
    for i in 0..16 {
        let digit = value(byte(t, at + i))?;
        w = w * 16 + digit as u64;
    }
    Some(w)
}

// Word k, in words that start at `from`, where it and what ends it are good.
fn group(t: &[u8], n: usize, from: usize, k: usize) -> Option<u64>
    requires { (0 < n) × (from ≤ 8) × (k ≤ 1024) }
    ensures { result ≡ cond (group_at t.now n from k) (Some (word_at t.now (from + 17 * k))) None }
{
    let at = from + 17 * k;
    let w = word(t, at)?;
    if byte(t, at + 16) != separator(n, k) {
        return None;
    }
    Some(w)
}

fn groups_good(t: &[u8], n: usize, from: usize, count: usize) -> bool
    requires { (from ≤ 8) × (count ≤ 1024) × (count ≡ n * n) }
    ensures { result ≡ every (group_at t.now n from) count }
{
    for k in 0..count {
        if group(t, n, from, k).is_none() {
            return false;
        }
    }
    true
}

// The words that start at `from`, count of them, go to the front of the matrix.
fn fill(t: &[u8], n: usize, from: usize, count: usize, matrix: &mut [f64])
    requires { (from ≤ 8) × (count ≤ 1024) × (count ≡ n * n) × (every (group_at t.now n from) count ≡ true) }
    ensures { matrix.new ≡ sets matrix.old 0 (table (float_at t.now from) count) }
{
    for k in 0..count {
        put(matrix, k, float(group(t, n, from, k).unwrap()));
    }
}

// What stands behind the first line.
fn read_words(t: &[u8], head: Head, matrix: &mut [f64]) -> Option<Reading>
    requires { (head.next ≤ 8) × (head.n ≤ 32) }
    ensures { (result, matrix.new) ≡ outcome (words_read t.now head.n head.limit head.next) matrix.old }
{
    let Head {
        n,
        limit,
        next: from,
    } = head;
    let count = n * n;
    if t.len() != from + 17 * count {
        return None;
    }
    if !groups_good(t, n, from, count) {
        return None;
    }
    fill(t, n, from, count, matrix);
    Some(Reading { n, limit })
}

// Reads a text. Of a good one the words go to the front of the matrix as far as there is room, row by row; a bad one leaves it as it was.
pub fn read(t: &[u8], matrix: &mut [f64]) -> Option<Reading>
    ensures { (result, matrix.new) ≡ outcome (reading t.now) matrix.old }
{
    let head = read_head(t)?;
    read_words(t, head, matrix)
}
