// How far a text of tiles has been read. No code: what reading a byte does stands in specs/, and the crate `text_tiles` does it.
#![tactic(auto)]

use tally_definition::Tally;

// Which number of a line is being read: the answer, the passes, or none, since the series has ended.
pub const ANSWER: usize = 0;

pub const PASSES: usize = 1;

pub const ENDED: usize = 2;

// The tally so far; which number of a line is being read; the answer, once it has been read; whether a digit of the number has been
// read; the number so far. The numbers stay: docs/PROMISES-C.md names text_tiles::read::read and more, which take every Series.
#[derive(Clone, Copy)]
pub struct Series {
    pub tally: Tally,
    pub stage: usize,
    pub answer: usize,
    pub begun: bool,
    pub value: usize,
}
