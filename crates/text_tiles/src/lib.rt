// What the program `tiles` does, on slices: a piece of its input, and its report. No contract can say what is read or written, so the
// loop over the pieces stands in the programs; `heard_tallied` (text_tiles_definition) says what it comes to.
#![tactic(auto)]

pub mod read; // Reads a text of tiles byte by byte, in pieces of any length
mod write; // Writes the report on a tally: its figures, one a line, and `end`

ghost use Rattle.std.specs.Prelude.{◌≡◌, ◌≤◌, length, take};
ghost use Rattle.text.specs.Writing.{written};
ghost use Rattle.text_tiles_definition.specs.Lines.{more};
ghost use Rattle.text_tiles_definition.specs.Report.{report_text};

use text_tiles_definition::Series;

// One piece of the input more. Where there is none, the input has ended, or can't be read: the series ends.
#[tactic(auto, unfolding(text_tiles_definition::specs::Lines::more))]
pub fn more(s: Series, piece: &[u8]) -> Series
    ensures { result ≡ more s piece.now }
{
    if piece.is_empty() {
        return read::ended(s.tally);
    }
    read::read(s, piece)
}

// Writes the report on a series to the front of out, which has room for every one, and gives its length.
pub fn report(s: Series, out: &mut [u8; 512]) -> usize
    ensures out_after { (result, out.new) ≡ written (report_text s.tally) out.old }
    ensures upper_bound { (result ≤ length out.new) × (result ≡ length (take result out.new)) }
{
    write::write(s.tally, out)
}
