// A tally of tiles, and why a tile is refused. What adding a tile does stands in specs/, and the crate `tally` does it.
#![tactic(auto)]

ghost use Rattle.std.specs.Prelude.{◌≡◌};
ghost use Rattle.tally_definition.specs.Refusals.{number};

// How many tiles, how many with each answer 0 to 15, all their passes, the most passes of one, and the first that had them, from 0.
#[repr(C)]
#[derive(Clone, Copy)]
pub struct Tally {
    pub tiles: usize,
    pub counts: [usize; 16],
    pub passes: usize,
    pub most: usize,
    pub first: usize,
}

// Why a tile is refused, by the number that C gets: the tally has no room for a tile more, or a figure that no series gives; or the
// tile's answer or its passes are out of range.
#[derive(Clone, Copy, Debug, PartialEq, Eq)]
pub enum Refusal {
    NotFit = 36,
    OutOfRange = 38,
}

impl From<Refusal> for usize {
    ghost from_gives = { λ r n. n ≡ number r };

    fn from(refusal: Refusal) -> usize {
        refusal as usize
    }
}
