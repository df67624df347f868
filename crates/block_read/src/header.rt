// The first three numbers of a transform block, and what they say of its parts. Reader and writer share it.
ghost use Rattle.std.specs.Prelude.{◌≡◌, ◌+◌, ◌*◌, ◌≤◌, IfOk};
ghost use Rattle.block_read.specs.Content.{size};
ghost use Rattle.block_read.specs.Reading.{dimensions, head_answer};
ghost use Rattle.block_read.specs.Refusals.{number_of};

use crate::refusal::BlockRefusal;
use answers::least;
use grid::LARGEST;

// Rows, columns and how many parts, none of them refused.
#[derive(Clone, Copy)]
pub struct Header {
    pub rows: usize,
    pub columns: usize,
    pub parts: usize,
    pub ghost high: { rows ≤ 256 },
    pub ghost wide: { columns ≤ 256 },
    pub ghost few: { parts ≤ 3 },
}

impl Header {
    // Refusal 22 for any of the three.
    #[tactic(auto, unfolding(crate::specs::Reading::dimensions))]
    pub fn new(rows: usize, columns: usize, parts: usize) -> Result<Header, BlockRefusal>
        ensures answer { number_of result ≡ dimensions rows columns parts }
        ensures is { IfOk result (λ h. (h.rows ≡ rows) × (h.columns ≡ columns) × (h.parts ≡ parts)) }
    {
        if rows > LARGEST || columns > LARGEST || parts > 3 {
            return Err(BlockRefusal::Count);
        }
        Ok(Header {
            rows,
            columns,
            parts,
        })
    }

    // How many numbers a part of that kind has: 1 values, 2 matrix, 3 inverse. A kind is a number, for C and the bytes give any, and they are compared by order.
    #[tactic(auto, unfolding(crate::specs::Content::size))]
    pub fn size(self, kind: usize) -> usize
        ensures { result ≡ size self.rows self.columns kind }
    {
        if kind == 1 {
            least(self.rows, self.columns)
        } else {
            self.rows * self.columns
        }
    }

    // Refusals 23 and 22 for a part of that kind with n numbers, behind one of the kind last (0: behind none).
    #[tactic(auto, unfolding(crate::specs::Reading::head_answer))]
    pub fn admit(self, last: usize, kind: usize, n: usize) -> Result<(), BlockRefusal>
        ensures { number_of result ≡ head_answer self.rows self.columns last kind n }
    {
        if kind <= last || kind > 3 {
            return Err(BlockRefusal::Kind);
        }
        if n != self.size(kind) {
            return Err(BlockRefusal::Count);
        }
        Ok(())
    }

    // Where the numbers begin: behind the entries.
    pub fn numbers_at(self) -> usize
        ensures { result ≡ 12 + 12 * self.parts }
    {
        12 * self.parts + 12
    }
}
