// The writer of a transform block, from bits and from doubles, and the length of a block.
#![tactic(auto)]

mod put_entries; // The entries of a transform block, written

ghost use Rattle.std.specs.Prelude.{◌≡◌, ◌+◌, ◌*◌, ◌≤◌, map, sum_by, take, length, IfOk};
ghost use Rattle.std.proofs.lemmas.List.Edits.{sets};
ghost use Rattle.block_read.specs.Content.{numbers_bytes};
ghost use Rattle.block_read.specs.Refusals.{number_of};
ghost use Rattle.block_write.specs.Writing.{given, heads_answer, length_of, written, doubles};
ghost use Rattle.block_write.specs.PutLaws.{bytes_of, head_counts, headed};

use crate::put_entries::put_entries;
use answers::{Answer, done};
use block_read::header::Header;
use block_read::refusal::BlockRefusal;
use octets::write::{Word, put_three, put_words};

// ---- the parts, each by its kind and how many numbers it has

// Refusals 23 and 22, in the reader's order.
fn admit(header: Header, heads: &[(usize, usize)]) -> Result<(), BlockRefusal>
    ensures { number_of result ≡ heads_answer header.rows header.columns 0 heads.now }
{
    let mut last = 0;
    for &(kind, n) in heads {
        header.admit(last, kind, n)?;
        last = kind;
    }
    Ok(())
}

// How many bytes a block takes with these parts.
fn length_with(heads: &[(usize, usize)]) -> usize
    requires { (length heads.now ≤ 3) × (sum_by (λ h. h.1) heads.now ≤ 196608) }
    ensures { result ≡ 12 + 12 * length heads.now + 8 * sum_by (λ h. h.1) heads.now }
{
    let numbers: usize = heads.iter().map(|h| h.1).sum();
    12 + 12 * heads.len() + 8 * numbers
}

// How many bytes the block of rows, columns and the first count of three kinds takes; 0 where the writer refuses it.
pub fn length_of(
    rows: usize,
    columns: usize,
    count: usize,
    k1: usize,
    k2: usize,
    k3: usize,
) -> usize
    ensures { result ≡ length_of rows columns count k1 k2 k3 }
{
    let Ok(header) = Header::new(rows, columns, count) else {
        return 0;
    };
    let heads = [
        (k1, header.size(k1)),
        (k2, header.size(k2)),
        (k3, header.size(k3)),
    ];
    match admit(header, &heads[..count]) {
        Ok(()) => length_with(&heads[..count]),
        Err(_) => 0,
    }
}

// The checks, and where they pass all of the block but its numbers, of the first count of three parts. A refusal leaves out untouched.
fn headed(
    out: &mut [u8],
    rows: usize,
    columns: usize,
    count: usize,
    heads: &[(usize, usize)],
) -> Result<Header, BlockRefusal>
    requires { length heads.now ≡ 3 }
    ensures put { let hs = take count heads.now in (number_of result, out.new) ≡ headed rows columns count hs (head_counts hs) out.old }
    ensures is { IfOk result (λ h. h.parts ≡ count) }
{
    let header = Header::new(rows, columns, count)?;
    let heads = &heads[..count];
    admit(header, heads)?;
    if out.len() != length_with(heads) {
        return Err(BlockRefusal::Length);
    }
    put_three(out, 0, rows, columns, count);
    put_entries(out, header.numbers_at(), heads);
    Ok(header)
}

// ---- the numbers

// The numbers of parts, from `at` on.
fn put_numbers<W: Word>(out: &mut [u8], at: usize, parts: &[(usize, &[W])])
    requires { at + bytes_of (map (λ p. length p.1.now) parts.now) ≤ length out.old }
    ensures { out.new ≡ sets out.old at (numbers_bytes (map (λ p. (p.0, map W.word p.1.now)) parts.now)) }
{
    let mut next = at;
    for (_, numbers) in parts {
        put_words(out, next, numbers);
        next += 8 * numbers.len();
    }
}

// ---- the writers

// A part's kind and how many numbers it has.
fn head<W: Word>(part: &(usize, &[W])) -> (usize, usize)
    ensures { result ≡ (part.now.0, length part.now.1.now) }
{
    (part.0, part.1.len())
}

// The block of rows, columns and the first count of three parts. A refusal leaves out untouched.
fn put<W: Word>(
    out: &mut [u8],
    rows: usize,
    columns: usize,
    count: usize,
    parts: &[(usize, &[W]); 3],
) -> Answer
    ensures { (result, out.new) ≡ written rows columns count (take count (map (λ p. (p.0, map W.word p.1.now)) parts.now)) out.old }
{
    let heads = [head(&parts[0]), head(&parts[1]), head(&parts[2])];
    match headed(out, rows, columns, count, &heads) {
        Ok(header) => {
            put_numbers(out, header.numbers_at(), &parts[..count]);
            done(0)
        }
        Err(r) => r.into(),
    }
}

// Writes the block of rows, columns and the first count of three parts, each by its kind and the bits of its numbers. A refusal leaves out untouched.
pub fn write(
    rows: usize,
    columns: usize,
    count: usize,
    k1: usize,
    p1: &[u64],
    k2: usize,
    p2: &[u64],
    k3: usize,
    p3: &[u64],
    out: &mut [u8],
) -> Answer
    ensures { (result, out.new) ≡ written rows columns count (given count (k1, p1.now) (k2, p2.now) (k3, p3.now)) out.old }
{
    put(out, rows, columns, count, &[(k1, p1), (k2, p2), (k3, p3)])
}

// The same from doubles. A NaN is written as 7ff8000000000000.
pub fn write_doubles(
    rows: usize,
    columns: usize,
    count: usize,
    k1: usize,
    p1: &[f64],
    k2: usize,
    p2: &[f64],
    k3: usize,
    p3: &[f64],
    out: &mut [u8],
) -> Answer
    ensures { (result, out.new) ≡ written rows columns count (given count (doubles k1 p1.now) (doubles k2 p2.now) (doubles k3 p3.now)) out.old }
{
    put(out, rows, columns, count, &[(k1, p1), (k2, p2), (k3, p3)])
}
