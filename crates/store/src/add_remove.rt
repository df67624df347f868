// What changes in a store (`one_owner`): a block added behind the others, a block gone and those behind it moved down.
ghost use Rattle.std.specs.Prelude.{◌≡◌, ◌+◌, ◌<◌, ◌≤◌, length};
ghost use Rattle.answers.specs.Answers.{done};
ghost use Rattle.store_definition.specs.Store.{held_of, start_of, added, removed};

use crate::loops::start_of;

// A block behind the others, which end at `at`.
pub fn add(
    list: &mut [usize],
    tiles: &mut [u16],
    bytes: &mut [u8],
    at: usize,
    tile: u16,
    block: &[u8],
)
    requires { (at ≡ start_of list.old (held_of list.old)) × (2 + held_of list.old < length list.old) × (held_of list.old < length tiles.old) × (at + length block.now ≤ length bytes.old) }
    ensures { (done 0, list.new, tiles.new, bytes.new) ≡ added list.old tiles.old bytes.old tile block.now }
{
    let held = list[1];
    bytes[at..at + block.len()].copy_from_slice(block);
    tiles[held] = tile;
    list[2 + held] = block.len();
    list[1] = held + 1;
}

// The block in entry k gone, those behind it moved down.
pub fn remove(list: &mut [usize], tiles: &mut [u16], bytes: &mut [u8], k: usize)
    requires { (k < held_of list.old) × (2 + held_of list.old ≤ length list.old) × (held_of list.old ≤ length tiles.old) × (start_of list.old (held_of list.old) ≤ length bytes.old) × (length bytes.old ≤ 65536) }
    ensures { (done 0, list.new, tiles.new, bytes.new) ≡ removed list.old tiles.old bytes.old k }
{
    let held = list[1];
    let at = start_of(list, k);
    let used = start_of(list, held);
    bytes.copy_within(at + list[2 + k]..used, at);
    tiles.copy_within(k + 1..held, k);
    list.copy_within(3 + k..2 + held, 2 + k);
    list[1] = held - 1;
}
