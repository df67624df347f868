// Reads a line per tile from standard input, up to the first line that is none or is refused, and writes the figures of the series to
// standard output.
#![tactic(auto)]

use text_tiles_definition::{ENDED, Series};

// The input's pieces up to the series' end. The bound is none that an input has: it says that this ends.
fn series(input: i32) -> Series {
    let mut s = text_tiles::read::begun();
    for _ in 0..usize::MAX {
        if s.stage >= ENDED {
            return s;
        }
        let mut piece = io::buffer();
        let got = io::read_full(input, &mut piece);
        s = text_tiles::more(s, &piece[..got]);
    }
    s
}

fn main() {
    let s = series(0);
    let mut text = [0u8; 512];
    let length = text_tiles::report(s, &mut text);
    io::write_all(1, &text[..length]);
}
