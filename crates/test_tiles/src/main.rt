// Answers the texts of data/ in turn, each under its file's name.
#![tactic(auto)]

use std::fs::OpenOptions;
use std::os::fd::AsRawFd;
use std::rt::Files;
use text_tiles_definition::{ENDED, Series};

// The files: whole series, tiles that are refused, and lines that are none.
const FILES: [&str; 20] = [
    "empty",
    "one",
    "all_answers",
    "most_is_first",
    "pieces",
    "answer_16",
    "passes_15361",
    "number_2_to_64",
    "leading_zero",
    "passes_leading_zero",
    "two_spaces",
    "space_before",
    "space_behind",
    "carriage_return",
    "no_passes",
    "three_numbers",
    "empty_line",
    "sign",
    "no_last_line_feed",
    "zero_byte",
];

// As in `tiles`: a program can't call another, and a library's function that reads would have nothing to promise.
fn series(input: i32) -> Series {
    let mut s = text_tiles::read::begun();
    for _ in 0..usize::MAX {
        if s.stage >= ENDED {
            return s;
        }
        let mut piece = io::buffer();
        let got = io::read_full(input, &mut piece);
        s = text_tiles::more(s, &piece[..got]);
    }
    s
}

fn answer(input: i32) {
    let s = series(input);
    let mut text = [0u8; 512];
    let length = text_tiles::report(s, &mut text);
    io::write_all(1, &text[..length]);
}

fn file(rt: &HostRuntime, name: &str) -> std::io::Result<()> {
    io::write_all(1, b"-- ");
    io::write_all(1, name.as_bytes());
    io::write_all(1, b"\n");
    let text = rt.open_file(OpenOptions::new().read(true), name)?;
    answer(text.as_raw_fd());
    Ok(())
}

fn main(rt: HostRuntime) -> std::io::Result<()> {
    for name in FILES {
        file(&rt, name)?;
    }
    Ok(())
}
