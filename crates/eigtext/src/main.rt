// Reads a text from standard input and writes the answer to standard output.
#![tactic(auto)]

fn answer(t: &[u8]) {
    let mut output = io::large_buffer();
    let length = text_reply::reply(t, &mut output);
    io::write_all(1, &output[..length]);
}

// The longest good text has 17415 bytes. Where the input is longer than the buffer, what the buffer holds is bad text, as the whole is.
fn main() {
    let mut input = io::large_buffer();
    let got = io::read_full(0, &mut input);
    answer(&input[..got]);
}
