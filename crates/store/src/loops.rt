// What the store's calls go through: the search for a tile, where a block starts, and whether a store is sound, or what is refused.
// `one_owner` says what list, tiles and bytes are.
ghost use Rattle.std.specs.Prelude.{◌≡◌, ◌+◌, ◌<◌, ◌≤◌, leb, eqb, cond, length, position, [], true, false, IfOk, MatchResult};
ghost use Rattle.store_definition.specs.SoundLaws.{Facts};
ghost use Rattle.store_definition.specs.Store.{distinct, room_of, held_of, start_of, entry_of, holds, listed, sound};
ghost use Rattle.store.specs.Parts.{LiesAt};
ghost use Rattle.store.specs.Refusals.{looked_up};

use crate::refusal::StoreRefusal;

// The most bytes that a buffer may have.
pub const MOST: usize = 65536;

fn find(s: &[u16], t: u16) -> Option<usize>
    ensures { result ≡ position (λ x. eqb x t) s.now }
{
    s.iter().position(|x| *x == t)
}

// The entry of a tile that is held.
pub fn entry_of(list: &[usize], tiles: &[u16], tile: u16) -> Option<usize>
    requires { (1 < length list.now) × (held_of list.now ≤ length tiles.now) }
    ensures { result ≡ cond (holds list.now tiles.now [] tile) (Some (entry_of list.now tiles.now [] tile)) None }
{
    find(&tiles[..list[1]], tile)
}

// Where the block in entry k starts: the sum of the lengths before it.
pub fn start_of(list: &[usize], k: usize) -> usize
    requires { (2 + k ≤ length list.now) × (start_of list.now k ≤ 65536) }
    ensures { result ≡ start_of list.now k }
{
    list[2..2 + k].iter().sum()
}

// Whether the first k lengths together are at most the room.
fn within(list: &[usize], k: usize) -> bool
    requires { 2 + k ≤ length list.now }
    ensures { result ≡ leb (start_of list.now k) (room_of list.now) }
{
    let mut left = list[0];
    for &n in &list[2..2 + k] {
        if n > left {
            return false;
        }
        left -= n;
    }
    true
}

// Whether no tile stands twice: the bit of each, of 65,536 in 1,024 words, is set as it is met.
fn differ(s: &[u16]) -> bool
    ensures { result ≡ distinct s.now }
{
    let mut seen = [0u64; 1024];
    for &t in s.iter().rev() {
        let word = (t / 64) as usize;
        let bit = 1 << (t % 64);
        if seen[word] & bit != 0 {
            return false;
        }
        seen[word] |= bit;
    }
    true
}

// Whether list and tiles have the lengths of so many entries.
pub fn is_listed(entries: usize, list: &[usize], tiles: &[u16]) -> bool
    ensures { result ≡ listed entries list.now tiles.now }
{
    list.len() >= 2 && list.len() - 2 == entries && tiles.len() == entries
}

// Whether the store is one that a set-up and calls may have left.
#[tactic(auto, using(std::proofs::lemmas::Bool::Decides::nat_tests), unfolding(store_definition::specs::Store::sound))]
pub fn is_sound(entries: usize, list: &[usize], tiles: &[u16], bytes: &[u8]) -> bool
    ensures { result ≡ sound entries list.now tiles.now bytes.now }
{
    is_listed(entries, list, tiles)
        && list[0] <= MOST
        && bytes.len() == list[0]
        && list[1] <= entries
        && within(list, list[1])
        && differ(&tiles[..list[1]])
}

// Refused where the store is not sound.
pub fn check(
    entries: usize,
    list: &[usize],
    tiles: &[u16],
    bytes: &[u8],
) -> Result<(), StoreRefusal>
    ensures is { MatchResult result (λ _. sound entries list.now tiles.now bytes.now ≡ true) (λ r. (sound entries list.now tiles.now bytes.now ≡ false) × (r ≡ StoreRefusal.Damaged)) }
    ensures facts { IfOk result (λ _. Facts entries list.now tiles.now bytes.now) }
{
    if is_sound(entries, list, tiles, bytes) {
        Ok(())
    } else {
        Err(StoreRefusal::Damaged)
    }
}

// The entry of a tile in a store that is sound.
#[tactic(auto, using(std::proofs::lemmas::Bool::Decides::nat_tests), unfolding(crate::specs::Refusals::looked_up))]
pub fn held_at(
    entries: usize,
    list: &[usize],
    tiles: &[u16],
    bytes: &[u8],
    tile: u16,
) -> Result<usize, StoreRefusal>
    ensures is { result ≡ looked_up entries list.now tiles.now bytes.now tile }
    ensures lies { IfOk result (λ k. LiesAt list.now tiles.now bytes.now k) }
{
    check(entries, list, tiles, bytes)?;
    entry_of(list, tiles, tile).ok_or(StoreRefusal::Missing)
}
