// The reader's check of a transform block: rows, columns and up to three parts of doubles, in one block of big-endian bytes.
#![tactic(auto)]

pub mod header; // The first three numbers of a transform block, and what they say of its parts. Reader and writer share it
pub mod lookup; // What is in a transform block: where its parts stand, the part of a kind from the tile's own block or the main one, and its numbers as doubles
pub mod refusal; // Why the reader or the writer refuses a block, by the names of the C header

ghost use Rattle.std.specs.Prelude.{◌≡◌, ◌+◌, ◌*◌, ◌≤◌, length, IfOk};
ghost use Rattle.octets.specs.Bytes.{num};
ghost use Rattle.answers.specs.Answers.{refused};
ghost use Rattle.block_read.specs.Reading.{entry_answer, end_answer, entries, answer_of};
ghost use Rattle.block_read.specs.Refusals.{number_of};

use crate::header::Header;
use crate::refusal::BlockRefusal;
use answers::{Answer, refused};
use octets::number;
use std::cmp::Ordering;

// The entry at `at`, behind a part of the kind last, for numbers that should start at off.
#[tactic(auto, unfolding(crate::specs::Reading::entry_answer))]
fn entry(t: &[u8], header: Header, at: usize, last: usize, off: usize) -> Result<(), BlockRefusal>
    requires { at + 12 ≤ length t.now }
    ensures { number_of result ≡ entry_answer t.now header.rows header.columns at last off }
{
    header.admit(last, number(t, at), number(t, at + 8))?;
    if number(t, at + 4) != off {
        return Err(BlockRefusal::Offset);
    }
    Ok(())
}

// A block of that length whose numbers end at off.
#[tactic(auto, unfolding(crate::specs::Reading::end_answer))]
fn end(len: usize, off: usize) -> Result<(), BlockRefusal>
    ensures { number_of result ≡ end_answer len off }
{
    match len.cmp(&off) {
        Ordering::Less => Err(BlockRefusal::Short), // the numbers are cut short
        Ordering::Equal => Ok(()),
        Ordering::Greater => Err(BlockRefusal::Over),
    }
}

// All that stands behind the first twelve bytes. The numbers themselves are not looked at.
fn entries(t: &[u8], header: Header) -> Result<(), BlockRefusal>
    requires { 12 + 12 * header.parts ≤ length t.now }
    ensures { number_of result ≡ entries t.now header.rows header.columns header.parts 12 0 (12 + 12 * header.parts) }
{
    let mut last = 0;
    let mut off = header.numbers_at();
    for i in 0..header.parts {
        let at = 12 + 12 * i;
        entry(t, header, at, last, off)?;
        last = number(t, at);
        off += 8 * header.size(last);
    }
    end(t.len(), off)
}

// The header of a block, or why the bytes are none.
#[tactic(auto, unfolding(crate::specs::Reading::answer_of, crate::specs::Reading::behind))]
fn taken(t: &[u8]) -> Result<Header, BlockRefusal>
    ensures answer { number_of result ≡ answer_of t.now }
    ensures is { IfOk result (λ h. (h.rows ≡ num 4 t.now 0) × (h.columns ≡ num 4 t.now 4) × (h.parts ≡ num 4 t.now 8)) }
{
    if t.len() < 12 {
        return Err(BlockRefusal::Short);
    }
    let header = Header::new(number(t, 0), number(t, 4), number(t, 8))?;
    if t.len() < header.numbers_at() {
        return Err(BlockRefusal::Short);
    }
    entries(t, header)?;
    Ok(header)
}

// The reader's answer as one number: 0 where the bytes are a block, else the refusal.
pub fn answer(t: &[u8]) -> usize
    ensures { result ≡ answer_of t.now }
{
    match taken(t) {
        Ok(_) => 0,
        Err(r) => r.into(),
    }
}

// The same as the four numbers that every call comes back with.
pub fn check(t: &[u8]) -> Answer
    ensures { result ≡ refused (answer_of t.now) 0 }
{
    refused(answer(t), 0)
}
