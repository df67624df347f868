// A store (`one_owner`) read: the length of a tile's block, and the block.
ghost use Rattle.std.specs.Prelude.{◌≡◌};
ghost use Rattle.store_definition.specs.Store.{length_held, fetch_of};
ghost use Rattle.store.specs.Refusals.{verdict, counted};

use crate::loops::{held_at, start_of};
use crate::refusal::StoreRefusal;

// The length of a tile's block.
#[tactic(auto, using(std::proofs::lemmas::Bool::Decides::nat_tests), unfolding(crate::specs::Refusals::looked_up, store_definition::specs::Store::length_held))]
pub fn length_of(
    entries: usize,
    list: &[usize],
    tiles: &[u16],
    bytes: &[u8],
    tile: u16,
) -> Result<usize, StoreRefusal>
    ensures { counted result ≡ length_held entries list.now tiles.now bytes.now tile }
{
    let k = held_at(entries, list, tiles, bytes, tile)?;
    Ok(list[2 + k])
}

// A tile's block into a destination of just its length.
#[tactic(auto, using(std::proofs::lemmas::Bool::Decides::nat_tests), unfolding(crate::specs::Refusals::looked_up, store_definition::specs::Store::fetch_of))]
pub fn fetch(
    entries: usize,
    list: &[usize],
    tiles: &[u16],
    bytes: &[u8],
    tile: u16,
    out: &mut [u8],
) -> Result<(), StoreRefusal>
    ensures { (verdict result, out.new) ≡ fetch_of entries list.now tiles.now bytes.now tile out.old }
{
    let k = held_at(entries, list, tiles, bytes, tile)?;
    if out.len() != list[2 + k] {
        return Err(StoreRefusal::Length);
    }
    let at = start_of(list, k);
    out.copy_from_slice(&bytes[at..at + out.len()]);
    Ok(())
}
