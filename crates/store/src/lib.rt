// Two owners, 0 and 1, over one store. Each has 32 entries of the list and of the tiles, and as many bytes of the buffer as its quota; its calls are the
// store's own calls on those parts.
#![tactic(auto)]

mod loops; // What the store's calls go through: the search for a tile, where a block starts, and whether a store is sound, or what is refused
mod add_remove; // What changes in a store (`one_owner`): a block added behind the others, a block gone and those behind it moved down
pub mod length_fetch; // A store (`one_owner`) read: the length of a tile's block, and the block
pub mod one_owner; // A store of blocks under tile numbers, in one lent buffer
pub mod refusal; // Why a call of the store is refused, by the names and numbers of the C header, and what C gets of a call's result
pub mod quotas; // Two owners' parts of one store: the set-up with their quotas, the reset, and what is refused before an owner's part is looked at

ghost use Rattle.std.specs.Prelude.{◌≡◌};
ghost use Rattle.store_definition.specs.Owners.{put_for, length_for, fetch_for, drop_for};

use crate::quotas::part_of;
use crate::refusal::{answer_of, count_of};
use answers::Answer;

#[tactic(auto, using(std::proofs::lemmas::Bool::Decides::nat_tests), unfolding(store_definition::specs::Owners::put_for))]
pub fn put(
    owner: usize,
    list: &mut [usize],
    tiles: &mut [u16],
    bytes: &mut [u8],
    tile: u16,
    block: &[u8],
) -> Answer
    ensures { (result, list.new, tiles.new, bytes.new) ≡ put_for owner list.old tiles.old bytes.old tile block.now }
{
    match part_of(owner, list, tiles, bytes) {
        Ok(part) => answer_of(crate::one_owner::put(
            32,
            &mut list[part.list],
            &mut tiles[part.tiles],
            &mut bytes[part.bytes],
            tile,
            block,
        )),
        Err(r) => r.into(),
    }
}

#[tactic(auto, using(std::proofs::lemmas::Bool::Decides::nat_tests), unfolding(store_definition::specs::Owners::length_for))]
pub fn length_of(owner: usize, list: &[usize], tiles: &[u16], bytes: &[u8], tile: u16) -> Answer
    ensures { result ≡ length_for owner list.now tiles.now bytes.now tile }
{
    match part_of(owner, list, tiles, bytes) {
        Ok(part) => count_of(crate::length_fetch::length_of(
            32,
            &list[part.list],
            &tiles[part.tiles],
            &bytes[part.bytes],
            tile,
        )),
        Err(r) => r.into(),
    }
}

#[tactic(auto, using(std::proofs::lemmas::Bool::Decides::nat_tests), unfolding(store_definition::specs::Owners::fetch_for))]
pub fn fetch(
    owner: usize,
    list: &[usize],
    tiles: &[u16],
    bytes: &[u8],
    tile: u16,
    out: &mut [u8],
) -> Answer
    ensures { (result, out.new) ≡ fetch_for owner list.now tiles.now bytes.now tile out.old }
{
    match part_of(owner, list, tiles, bytes) {
        Ok(part) => answer_of(crate::length_fetch::fetch(
            32,
            &list[part.list],
            &tiles[part.tiles],
            &bytes[part.bytes],
            tile,
            out,
        )),
        Err(r) => r.into(),
    }
}

#[tactic(auto, using(std::proofs::lemmas::Bool::Decides::nat_tests), unfolding(store_definition::specs::Owners::drop_for))]
pub fn drop_tile(
    owner: usize,
    list: &mut [usize],
    tiles: &mut [u16],
    bytes: &mut [u8],
    tile: u16,
) -> Answer
    ensures { (result, list.new, tiles.new, bytes.new) ≡ drop_for owner list.old tiles.old bytes.old tile }
{
    match part_of(owner, list, tiles, bytes) {
        Ok(part) => answer_of(crate::one_owner::drop_tile(
            32,
            &mut list[part.list],
            &mut tiles[part.tiles],
            &mut bytes[part.bytes],
            tile,
        )),
        Err(r) => r.into(),
    }
}
