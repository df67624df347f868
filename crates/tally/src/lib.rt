// Adding a tile to a tally.
#![tactic(auto)]

ghost use Rattle.std.specs.Prelude.{◌≡◌, nat_le};
ghost use Rattle.std.specs.List.{list_all};
ghost use Rattle.tally_definition.specs.Figures.{in_range};
ghost use Rattle.tally_definition.specs.Tallies.{fit, reply_of, outcome, none};

use tally_definition::{Refusal, Tally};

// The tally of no tile.
#[tactic(auto, unfolding(tally_definition::specs::Tallies::none))]
pub fn empty() -> Tally
    ensures { result ≡ none }
{
    Tally {
        tiles: 0,
        counts: [0; 16],
        passes: 0,
        most: 0,
        first: 0,
    }
}

// Whether no count is over 65,536.
fn small(counts: &[usize; 16]) -> bool
    ensures { result ≡ list_all (λ c. nat_le c 65536) counts.now }
{
    counts.iter().all(|&count| count <= 65536)
}

// Whether a tally has room for a tile more, and no figure that no series gives.
#[tactic(auto, using(crate::specs::OutcomeLaws::small_all), unfolding(tally_definition::specs::Tallies::fit))]
fn is_fit(t: &Tally) -> bool
    ensures { result ≡ fit t.now }
{
    t.tiles < 65536
        && t.passes <= 1006632960
        && t.most <= 15360
        && t.first <= 65535
        && small(&t.counts)
}

// Whether a tile's numbers are in range.
fn in_range(answer: usize, passes: usize) -> bool
    ensures { result ≡ in_range answer passes }
{
    answer <= 15 && passes <= 15360
}

// The tally with the tile, or why the tile is refused. It is made of its fields, since the C entry would copy a whole one, of 160 bytes, by memcpy.
pub fn added(t: Tally, answer: usize, passes: usize) -> Result<Tally, Refusal>
    ensures { reply_of t result ≡ outcome t answer passes }
{
    if !in_range(answer, passes) {
        return Err(Refusal::OutOfRange);
    }
    if !is_fit(&t) {
        return Err(Refusal::NotFit);
    }
    let mut counts = t.counts;
    counts[answer] += 1;
    let more = Tally {
        tiles: t.tiles + 1,
        counts,
        passes: t.passes + passes,
        ..t
    };
    if t.most < passes {
        return Ok(Tally {
            most: passes,
            first: t.tiles,
            ..more
        });
    }
    Ok(more)
}
