// A store of blocks under tile numbers, in one lent buffer. What it holds stands outside of the buffer: `list` has the room, how many
// blocks are held and the length of each, `tiles` the tile number of each, in the order in which the blocks stand, one behind the other
// from the buffer's start on. `entries` is the most blocks that it may hold. The three stay three parameters, as C lends them: a struct
// of three `&mut` is no plainer, since each contract would also say which reference each field holds.
ghost use Rattle.std.specs.Prelude.{◌≡◌};
ghost use Rattle.store_definition.specs.Store.{set_up, put_of, drop_of};
ghost use Rattle.store.specs.Refusals.{verdict};

use crate::add_remove::{add, remove};
use crate::loops::{MOST, check, entry_of, held_at, is_listed, start_of};
use crate::refusal::StoreRefusal;

// The empty store over a buffer of at most 65,536 bytes.
#[tactic(auto, using(std::proofs::lemmas::Bool::Decides::nat_tests), unfolding(store_definition::specs::Store::set_up))]
pub fn set_up(
    entries: usize,
    list: &mut [usize],
    tiles: &[u16],
    bytes: &[u8],
) -> Result<(), StoreRefusal>
    ensures { (verdict result, list.new) ≡ set_up entries list.old tiles.now bytes.now }
{
    if bytes.len() > MOST {
        return Err(StoreRefusal::Buffer);
    }
    if !is_listed(entries, list, tiles) {
        return Err(StoreRefusal::Damaged);
    }
    list[0] = bytes.len();
    list[1] = 0;
    Ok(())
}

#[tactic(auto, using(std::proofs::lemmas::Bool::Decides::nat_tests), unfolding(store_definition::specs::Store::put_of))]
pub fn put(
    entries: usize,
    list: &mut [usize],
    tiles: &mut [u16],
    bytes: &mut [u8],
    tile: u16,
    block: &[u8],
) -> Result<(), StoreRefusal>
    ensures { (verdict result, list.new, tiles.new, bytes.new) ≡ put_of entries list.old tiles.old bytes.old tile block.now }
{
    check(entries, list, tiles, bytes)?;
    if entry_of(list, tiles, tile).is_some() {
        return Err(StoreRefusal::Held);
    }
    let held = list[1];
    if entries <= held {
        return Err(StoreRefusal::Entries);
    }
    let used = start_of(list, held);
    if block.len() > bytes.len() - used {
        return Err(StoreRefusal::Full);
    }
    add(list, tiles, bytes, used, tile, block);
    Ok(())
}

// A tile's block gone, and its room free.
#[tactic(auto, using(std::proofs::lemmas::Bool::Decides::nat_tests), unfolding(crate::specs::Refusals::looked_up, store_definition::specs::Store::drop_of))]
pub fn drop_tile(
    entries: usize,
    list: &mut [usize],
    tiles: &mut [u16],
    bytes: &mut [u8],
    tile: u16,
) -> Result<(), StoreRefusal>
    ensures { (verdict result, list.new, tiles.new, bytes.new) ≡ drop_of entries list.old tiles.old bytes.old tile }
{
    let k = held_at(entries, list, tiles, bytes, tile)?;
    remove(list, tiles, bytes, k);
    Ok(())
}
