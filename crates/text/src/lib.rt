// The text of the program eigtext: its bytes and digits, and its first line. A place of a text is looked at by a call that minds the end.
#![tactic(auto)]

pub mod read; // The reader of the program eigtext's input
pub mod write; // The writer of the program eigtext's answer

ghost use Rattle.std.specs.Prelude.{◌≡◌, ◌<◌, ◌≤◌, cond, Some, None, nat_lt};
ghost use Rattle.text.specs.Writing.{separator};
ghost use Rattle.octets.specs.Bytes.{byte};
ghost use Rattle.text.specs.Reading.{value, digit_of, number_at, head};

// The size and the limit of the first line of a text whose numbers stand in the matrix.
#[derive(Clone, Copy, Debug, PartialEq, Eq)]
pub struct Reading {
    pub n: usize,
    pub limit: usize,
}

// A decimal number that was read, and the place behind the byte that ended it.
#[derive(Clone, Copy)]
struct Number {
    value: usize,
    next: usize,
}

// A first line that was read, and the place behind it.
#[derive(Clone, Copy, Debug, PartialEq, Eq)]
pub struct Head {
    pub n: usize,
    pub limit: usize,
    pub next: usize,
}

// The byte at i, and 0, which is in no text, behind the end.
pub fn byte(t: &[u8], i: usize) -> u8
    ensures { result ≡ byte t.now i }
{
    t.get(i).copied().unwrap_or(0)
}

// The value of a lower-case hex digit.
#[tactic(auto, unfolding(crate::specs::Reading::value))]
pub fn value(b: u8) -> Option<usize>
    ensures { result ≡ digit_of b }
{
    match b {
        b'0'..=b'9' => Some((b - b'0') as usize),
        b'a'..=b'f' => Some((b - b'a' + 10) as usize),
        _ => None,
    }
}

// The value of a decimal digit.
fn decimal(b: u8) -> Option<usize>
    ensures { result ≡ cond (nat_lt (value b) 10) (Some (value b)) None }
{
    value(b).filter(|&d| d < 10)
}

// A decimal number of one to three digits that starts at `at` and that the byte end ends. Two or three digits start with no 0.
#[tactic(auto, unfolding(crate::specs::Reading::number_at, crate::specs::Reading::number_of))]
fn read_number(t: &[u8], at: usize, end: u8) -> Option<Number>
    requires { at ≤ 4 }
    ensures { result ≡ number_at t.now at end }
{
    let first = decimal(byte(t, at))?;
    let b = byte(t, at + 1);
    if b == end {
        return Some(Number {
            value: first,
            next: at + 2,
        });
    }
    if first == 0 {
        return None;
    }
    let second = decimal(b)?;
    let c = byte(t, at + 2);
    if c == end {
        return Some(Number {
            value: first * 10 + second,
            next: at + 3,
        });
    }
    let third = decimal(c)?;
    if byte(t, at + 3) != end {
        return None;
    }
    Some(Number {
        value: first * 100 + second * 10 + third,
        next: at + 4,
    })
}

// The first line: a size of at most 32, and the limit.
#[tactic(auto, using(crate::specs::Numbers::number_near), unfolding(crate::specs::Reading::head))]
pub fn read_head(t: &[u8]) -> Option<Head>
    ensures { result ≡ head t.now }
{
    let size = read_number(t, 0, b' ')?;
    if size.value > 32 {
        return None;
    }
    let limit = read_number(t, size.next, b'\n')?;
    Some(Head {
        n: size.value,
        limit: limit.value,
        next: limit.next,
    })
}

// What stands behind word k where each line has n words.
#[tactic(auto, unfolding(crate::specs::Writing::separator))]
pub fn separator(n: usize, k: usize) -> u8
    requires { (0 < n) × (k ≤ 2048) }
    ensures { result ≡ separator n k }
{
    if (k + 1) % n == 0 { b'\n' } else { b' ' }
}
