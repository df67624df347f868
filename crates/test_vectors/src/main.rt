// Reads numbers by their bits, 16 hexadecimal digits each. For a line with one it writes the root, for a line with two their hypot, by its bits too, or
// "nan": the scope's rule where a blank stands between them, and the correctly rounded one where a plus does. Where < or > stands there it writes the root of the first or
// of the second, worked out beside the other's. What is read and what must be written are made by tests/vectors/make.rs and tests/vectors/hypot2.py.
#![tactic(auto)]

ghost use Rattle.std.specs.Prelude.{◌<◌, ◌≤◌, length, IfSome};

// The value of a hexadecimal digit.
fn digit(c: u8) -> u64 {
    if c < b'a' {
        (c % 16) as u64
    } else {
        (c % 16) as u64 + 9
    }
}

// The number whose bits are the 16 digits at the front, and what stands behind them. Every pattern of a NaN gives the one NaN.
fn number(s: &[u8]) -> Option<(f64, &[u8])>
    ensures { IfSome result (λ p. length p.1.now ≤ length s.now) }
{
    let (digits, rest) = s.split_first_chunk::<16>()?;
    let word = digits.iter().fold(0, |w, c| w << 4 | digit(*c));
    Some((octets::float(word), rest))
}

fn show(y: f64) {
    if y.is_nan() {
        io::write_all(1, b"nan\n");
    } else {
        io::print_hex(1, y.to_bits(), 16);
        io::write_all(1, b"\n");
    }
}

// What is written for two numbers with that byte between them.
fn answer(between: u8, x: f64, y: f64) -> f64 {
    match between {
        b'<' => root::side_by_side::roots(x, y).0,
        b'>' => root::side_by_side::roots(x, y).1,
        b'+' => hypot::pythag(2, x, y),
        _ => hypot::pythag(1, x, y),
    }
}

// Answers the line at the front, and gives what stands behind it. A line cut short is the last.
fn line(s: &[u8]) -> Option<&[u8]>
    ensures { IfSome result (λ rest. length rest.now < length s.now) }
{
    let (x, behind) = number(s)?;
    let (between, rest) = behind.split_first()?;
    if *between == b'\n' {
        show(root::root(x));
        return Some(rest);
    }
    let (y, behind) = number(rest)?;
    let (_, rest) = behind.split_first()?;
    show(answer(*between, x, y));
    Some(rest)
}

fn lines(s: &[u8]) {
    let mut left = s;
    while let Some(rest) = line(left) {
        left = rest;
    }
}

fn main() {
    let mut buffer = io::large_buffer();
    let n = io::read_full(0, &mut buffer);
    lines(&buffer[..n]);
}
