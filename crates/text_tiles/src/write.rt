// Writes the report on a tally: its figures, one a line, and `end`.
ghost use Rattle.std.specs.Prelude.{◌≡◌};
ghost use Rattle.text.specs.Writing.{joined, written};
ghost use Rattle.text.specs.Stores.{append};
ghost use Rattle.text_tiles_definition.specs.Report.{figure_line, report_text};

use tally_definition::Tally;
use text::write::{put_all, put_number};

// The figures: the tiles, the counts of the answers 0 to 15, the passes, the most, the first. The place behind them.
fn put_figures(t: &Tally, out: &mut [u8]) -> usize
    ensures { (result, out.new) ≡ append (0, out.old) (joined (figure_line t.now) 20) }
{
    let mut at = put_number(out, 0, t.tiles, b'\n');
    for &count in &t.counts {
        at = put_number(out, at, count, b'\n');
    }
    at = put_number(out, at, t.passes, b'\n');
    at = put_number(out, at, t.most, b'\n');
    put_number(out, at, t.first, b'\n')
}

// Writes the report to the front of out, as far as there is room, and gives its length.
pub fn write(t: Tally, out: &mut [u8]) -> usize
    ensures { (result, out.new) ≡ written (report_text t) out.old }
{
    let at = put_figures(&t, out);
    put_all(out, at, b"end\n")
}
