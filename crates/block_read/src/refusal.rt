// Why the reader or the writer refuses a block, by the names of the C header.
ghost use Rattle.std.specs.Prelude.{◌≡◌};
ghost use Rattle.answers.specs.Answers.{refused};
ghost use Rattle.block_read.specs.Refusals.{refusal_number};

use answers::{Answer, refused};

#[derive(Clone, Copy)]
pub enum BlockRefusal {
    Length = 6,
    Short = 20,
    Over = 21,
    Count = 22,
    Kind = 23,
    Offset = 24,
}

// The number, as C's own records carry it.
impl From<BlockRefusal> for usize {
    ghost from_gives = { λ r n. n ≡ refusal_number r };

    fn from(r: BlockRefusal) -> usize {
        r as usize
    }
}

impl From<BlockRefusal> for Answer {
    ghost from_gives = { λ r a. a ≡ refused (refusal_number r) 0 };

    fn from(r: BlockRefusal) -> Answer {
        refused(r.into(), 0)
    }
}
