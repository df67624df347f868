// What is in a transform block: where its parts stand, the part of a kind from the tile's own block or the main one, and its numbers as doubles.
ghost use Rattle.std.specs.Prelude.{◌≡◌, ◌+◌, ◌*◌, ◌≤◌, length};
ghost use Rattle.octets.specs.Bytes.{num};
ghost use Rattle.block_read.specs.Reading.{answer_of};
ghost use Rattle.block_read.specs.Held.{place_in, held, block_read, shape_of};
ghost use Rattle.block_read.specs.Lookup.{placed, span_of, part_of, part_at, lookup, lookup_at, found, copied};
ghost use Rattle.block_read.specs.LookupLaws.{Within, copied_to, found_here};

use crate::header::Header;
use crate::refusal::BlockRefusal;
use crate::{answer, taken};
use answers::{Answer, answered, done};
use octets::{floats, number};

// What a block holds: where each part starts and how many numbers it has, both 0 where it is absent. Of a refused block only the answer is not 0.
// It stays nine numbers: t18_recorded and t18_refused_record speak of them.
#[derive(Clone, Copy)]
pub struct Block {
    pub answer: Answer,
    pub rows: usize,
    pub columns: usize,
    pub values_at: usize,
    pub values: usize,
    pub matrix_at: usize,
    pub matrix: usize,
    pub inverse_at: usize,
    pub inverse: usize,
}

// The same in four numbers, for a caller in C: the answer, rows, columns, how many parts.
#[repr(C)]
#[derive(Clone, Copy, Default)]
pub struct Shape {
    pub answer: usize,
    pub rows: usize,
    pub columns: usize,
    pub parts: usize,
}

// A part by its numbers, for a caller in C: the block, 1 the tile's own, 2 the main one, its start there, how many doubles, the block's shape, or all 0; then the answer for each block.
#[repr(C)]
#[derive(Clone, Copy, Default)]
pub struct Found {
    pub block: usize,
    pub start: usize,
    pub count: usize,
    pub rows: usize,
    pub columns: usize,
    pub own_answer: usize,
    pub main_answer: usize,
}

// ---- what a block holds

// Where the numbers of a kind start, by the first entry that has it.
fn place(t: &[u8], header: Header, kind: usize) -> Option<usize>
    requires { (answer_of t.now ≡ 0) × (header.parts ≡ num 4 t.now 8) }
    ensures { result ≡ placed (place_in t.now header.parts 12 kind) }
{
    for i in 0..header.parts {
        let at = 12 + 12 * i;
        if number(t, at) == kind {
            return Some(number(t, at + 4));
        }
    }
    None
}

// Where the part of a kind starts and how many numbers it has: both 0 where it is absent.
#[tactic(auto, unfolding(crate::specs::Held::held))]
fn part_in(t: &[u8], header: Header, kind: usize) -> (usize, usize)
    requires { (answer_of t.now ≡ 0) × (header.parts ≡ num 4 t.now 8) }
    ensures { let at = place_in t.now header.parts 12 kind in result ≡ (at, held header.rows header.columns kind at) }
{
    match place(t, header, kind) {
        Some(at) => (at, header.size(kind)),
        None => (0, 0),
    }
}

#[tactic(auto, unfolding(crate::specs::Held::block_read))]
pub fn read(t: &[u8]) -> Block
    ensures { result ≡ block_read t.now }
{
    match taken(t) {
        Ok(header) => {
            let (values_at, values) = part_in(t, header, 1);
            let (matrix_at, matrix) = part_in(t, header, 2);
            let (inverse_at, inverse) = part_in(t, header, 3);
            Block {
                answer: done(0),
                rows: header.rows,
                columns: header.columns,
                values_at,
                values,
                matrix_at,
                matrix,
                inverse_at,
                inverse,
            }
        }
        Err(r) => Block {
            answer: r.into(),
            rows: 0,
            columns: 0,
            values_at: 0,
            values: 0,
            matrix_at: 0,
            matrix: 0,
            inverse_at: 0,
            inverse: 0,
        },
    }
}

#[tactic(auto, unfolding(crate::specs::Held::shape_of))]
pub fn shape_of(t: &[u8]) -> Shape
    ensures { result ≡ shape_of t.now }
{
    match taken(t) {
        Ok(
            Header {
                rows,
                columns,
                parts,
            },
        ) => Shape {
            answer: 0,
            rows,
            columns,
            parts,
        },
        Err(r) => Shape {
            answer: r.into(),
            ..Shape::default()
        },
    }
}

// ---- the lookup

// Where the part of a kind starts and ends in a block. A refused block has none.
#[tactic(auto, unfolding(crate::specs::Lookup::span_of))]
fn span_of(t: &[u8], kind: usize) -> Option<(usize, usize)>
    ensures value { result ≡ span_of t.now kind }
    ensures within { Within (length t.now) result }
{
    let header = taken(t).ok()?;
    let at = place(t, header, kind)?;
    Some((at, at + 8 * header.size(kind)))
}

// The part of a kind, or the block's empty start.
fn part<'a>(t: &'a [u8], kind: usize) -> &'a [u8]
    ensures result_value { result.now ≡ part_of t.now (span_of t.now kind) }
    ensures ref_ptr_value { result.ref_ptr ≡ part_at t.entry.ref_ptr (span_of t.now kind) }
{
    match span_of(t, kind) {
        Some((a, e)) => &t[a..e],
        None => &t[..0],
    }
}

// The part of a kind from the tile's own block where it has one, else from the main block, else the main block's empty start.
#[tactic(auto, unfolding(crate::specs::Lookup::lookup, crate::specs::Lookup::lookup_at))]
pub fn find<'a>(own: &'a [u8], main: &'a [u8], kind: usize) -> &'a [u8]
    ensures result_value { result.now ≡ lookup own.now main.now kind }
    ensures ref_ptr_value { result.ref_ptr ≡ lookup_at own.entry.ref_ptr own.now main.entry.ref_ptr main.now kind }
{
    match span_of(own, kind) {
        Some((a, e)) => &own[a..e],
        None => part(main, kind),
    }
}

// The part of a kind of one block, by its numbers, with both answers as told.
fn found_in(block: usize, t: &[u8], kind: usize, told: Found) -> Option<Found>
    ensures { result ≡ found_here block t.now (span_of t.now kind) told }
{
    let (a, e) = span_of(t, kind)?;
    Some(Found {
        block,
        start: a,
        count: (e - a) / 8,
        rows: number(t, 0),
        columns: number(t, 4),
        ..told
    })
}

// The same part as `find` gives, by its numbers.
#[tactic(auto, unfolding(crate::specs::Lookup::found))]
pub fn locate(own: &[u8], main: &[u8], kind: usize) -> Found
    ensures { result ≡ found own.now main.now kind }
{
    let told = Found {
        own_answer: answer(own),
        main_answer: answer(main),
        ..Found::default()
    };
    if let Some(found) = found_in(1, own, kind, told) {
        return found;
    }
    found_in(2, main, kind, told).unwrap_or(told)
}

// ---- as doubles

// The doubles of a part, where out has room for just these, with that place.
fn copy_part(place: usize, part: &[u8], out: &mut [f64]) -> Answer
    ensures { (result, out.new) ≡ copied_to place part.now out.old }
{
    if part.len() / 8 != out.len() {
        return BlockRefusal::Length.into();
    }
    floats(part, out);
    answered(0, place, 0, 0)
}

// The doubles of the part that `find` gives. On 0 the place is the reader's answer for the tile's own block, so that a refused one is seen.
#[tactic(auto, unfolding(crate::specs::Lookup::copied))]
pub fn copy<'a>(own: &'a [u8], main: &'a [u8], kind: usize, out: &mut [f64]) -> Answer
    ensures { (result, out.new) ≡ copied own.now main.now kind out.old }
{
    copy_part(answer(own), find(own, main, kind), out)
}
