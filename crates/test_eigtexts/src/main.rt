// Answers the texts of data/ in turn, each under its file's name.
#![tactic(auto)]

use std::fs::OpenOptions;
use std::os::fd::AsRawFd;
use std::rt::Files;

// The files, by what becomes of them.
const FILES: [&str; 40] = [
    // Done.
    "example",
    "n_0",
    "minus_zero",
    "nan_above",
    "infinity_above",
    "three_bands",
    "equal_values",
    "subnormal",
    "n_32",
    // Refused before the run.
    "refused_2_limit_0",
    "refused_2_limit_61",
    "refused_2_limit_999",
    "refused_7_nan",
    "refused_7_infinity",
    // Refused by the run.
    "refused_8_mark_0",
    "refused_8_mark_1",
    "refused_8_mark_2",
    "refused_10_mark_0",
    "refused_10_mark_1",
    "refused_10_mark_1_in_e",
    "refused_9",
    // No text: a bad first line.
    "bad_empty",
    "bad_leading_zero",
    "bad_limit_leading_zero",
    "bad_limit_1000",
    "bad_no_limit",
    // Bad words.
    "bad_two_spaces",
    "bad_n_33",
    "bad_upper_case",
    "bad_digit",
    "bad_short_word",
    // Bad lines.
    "bad_space_for_line_feed",
    "bad_line_feed_for_space",
    "bad_carriage_return",
    "bad_empty_line",
    "bad_missing_line",
    // A bad end.
    "bad_missing_last_line_feed",
    "bad_line_behind",
    "bad_byte_behind",
    "bad_n_0_line_behind",
];

// As in `eigtext`: a program can't call another, and a library's function that writes would have nothing to promise.
fn answer(t: &[u8]) {
    let mut output = io::large_buffer();
    let length = text_reply::reply(t, &mut output);
    io::write_all(1, &output[..length]);
}

fn title(name: &[u8]) {
    io::write_all(1, b"-- ");
    io::write_all(1, name);
    io::write_all(1, b"\n");
}

fn file(rt: &HostRuntime, name: &str) -> std::io::Result<()> {
    title(name.as_bytes());
    let text = rt.open_file(OpenOptions::new().read(true), name)?;
    let mut input = io::large_buffer();
    let got = io::read_full(text.as_raw_fd(), &mut input);
    answer(&input[..got]);
    Ok(())
}

fn main(rt: HostRuntime) -> std::io::Result<()> {
    for name in FILES {
        file(&rt, name)?;
    }
    Ok(())
}
