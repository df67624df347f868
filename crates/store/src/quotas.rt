// Two owners' parts of one store: the set-up with their quotas, the reset, and what is refused before an owner's part is looked at.
ghost use Rattle.std.specs.Prelude.{◌≡◌, ◌≤◌, true, IfOk};
ghost use Rattle.store_definition.specs.Owners.{listed2, laid, barred, set_up2, sound_for, sound_both, reset};
ghost use Rattle.store.specs.Refusals.{number_of, verdict};
ghost use Rattle.store.specs.Parts.{part_for, Lies};

use crate::loops::{MOST, is_sound};
use crate::refusal::{StoreRefusal, answer_of};
use answers::{Answer, done};
use std::ops::Range;

// Where an owner's numbers of the list, tiles and bytes lie.
#[derive(Drop)]
pub struct Part {
    pub list: Range<usize>,
    pub tiles: Range<usize>,
    pub bytes: Range<usize>,
}

// Whether list and tiles have the lengths of two owners.
fn is_listed(list: &[usize], tiles: &[u16]) -> bool
    ensures { result ≡ listed2 list.now tiles.now }
{
    list.len() == 70 && tiles.len() == 64
}

// Whether lengths, room, quotas and what they leave over are such as a set-up leaves.
#[tactic(auto, using(std::proofs::lemmas::Bool::Decides::nat_tests), unfolding(store_definition::specs::Owners::laid))]
fn is_laid(list: &[usize], tiles: &[u16], bytes: &[u8]) -> bool
    ensures { result ≡ laid list.now tiles.now bytes.now }
{
    if !is_listed(list, tiles) {
        return false;
    }
    let room = list[0];
    let quota0 = list[1];
    let quota1 = list[35];
    room <= MOST
        && bytes.len() == room
        && quota0 <= room
        && quota1 <= room - quota0
        && list[69] == room - quota0 - quota1
}

// The part of one of the two owners.
fn part_for(owner: usize, list: &[usize], tiles: &[u16], bytes: &[u8]) -> Part
    requires { (owner ≤ 1) × (laid list.now tiles.now bytes.now ≡ true) }
    ensures is { result ≡ part_for owner list.now }
    ensures lies { Lies list.now tiles.now bytes.now result }
{
    let first = 1 + owner * 34;
    let tile = owner * 32;
    let start = owner * list[1];
    Part {
        list: first..first + 34,
        tiles: tile..tile + 32,
        bytes: start..start + list[first],
    }
}

// An owner's part, unless what comes before it is refused.
#[tactic(auto, using(std::proofs::lemmas::Bool::Decides::nat_tests), unfolding(store_definition::specs::Owners::barred))]
pub fn part_of(
    owner: usize,
    list: &[usize],
    tiles: &[u16],
    bytes: &[u8],
) -> Result<Part, StoreRefusal>
    ensures refusal { number_of result ≡ barred owner list.now tiles.now bytes.now }
    ensures part { IfOk result (λ p. p ≡ part_for owner list.now) }
    ensures lies { IfOk result (λ p. Lies list.now tiles.now bytes.now p) }
{
    if owner > 1 {
        return Err(StoreRefusal::Owner);
    }
    if !is_laid(list, tiles, bytes) {
        return Err(StoreRefusal::Damaged);
    }
    Ok(part_for(owner, list, tiles, bytes))
}

// Two empty stores over a buffer of at most 65,536 bytes, of which each owner has its quota.
#[tactic(auto, using(std::proofs::lemmas::Bool::Decides::nat_tests), unfolding(store_definition::specs::Owners::set_up2))]
fn lay(
    quota0: usize,
    quota1: usize,
    list: &mut [usize],
    tiles: &[u16],
    bytes: &[u8],
) -> Result<(), StoreRefusal>
    ensures { (verdict result, list.new) ≡ set_up2 list.old tiles.now bytes.now quota0 quota1 }
{
    let room = bytes.len();
    if room > MOST {
        return Err(StoreRefusal::Buffer);
    }
    if quota0 > room || quota1 > room - quota0 {
        return Err(StoreRefusal::Quotas);
    }
    if !is_listed(list, tiles) {
        return Err(StoreRefusal::Damaged);
    }
    list[0] = room;
    list[1] = quota0;
    list[2] = 0;
    list[35] = quota1;
    list[36] = 0;
    list[69] = room - quota0 - quota1;
    Ok(())
}

pub fn set_up(
    quota0: usize,
    quota1: usize,
    list: &mut [usize],
    tiles: &[u16],
    bytes: &[u8],
) -> Answer
    ensures { (result, list.new) ≡ set_up2 list.old tiles.now bytes.now quota0 quota1 }
{
    answer_of(lay(quota0, quota1, list, tiles, bytes))
}

// Whether an owner's own list is one that its calls take.
fn is_sound_for(owner: usize, list: &[usize], tiles: &[u16], bytes: &[u8]) -> bool
    requires { (owner ≤ 1) × (laid list.now tiles.now bytes.now ≡ true) }
    ensures { result ≡ sound_for owner list.now tiles.now bytes.now }
{
    let part = part_for(owner, list, tiles, bytes);
    is_sound(32, &list[part.list], &tiles[part.tiles], &bytes[part.bytes])
}

// Whether the arrays are such as a set-up and calls leave, of both owners.
#[tactic(auto, using(std::proofs::lemmas::Bool::Decides::nat_tests), unfolding(store_definition::specs::Owners::sound_both))]
fn is_sound_both(list: &[usize], tiles: &[u16], bytes: &[u8]) -> bool
    ensures { result ≡ sound_both list.now tiles.now bytes.now }
{
    is_laid(list, tiles, bytes)
        && is_sound_for(0, list, tiles, bytes)
        && is_sound_for(1, list, tiles, bytes)
}

// Both owners' stores empty.
#[tactic(auto, using(std::proofs::lemmas::Bool::Decides::nat_tests), unfolding(store_definition::specs::Owners::reset))]
pub fn reset(list: &mut [usize], tiles: &[u16], bytes: &[u8]) -> Answer
    ensures { (result, list.new) ≡ reset list.old tiles.now bytes.now }
{
    if !is_sound_both(list, tiles, bytes) {
        return StoreRefusal::Damaged.into();
    }
    list[2] = 0;
    list[36] = 0;
    done(0)
}
