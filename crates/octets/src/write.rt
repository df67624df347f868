// Whole numbers and the bits of doubles written as big-endian bytes.
ghost use Rattle.std.specs.Prelude.{◌≡◌, ℕ, map, ◌+◌, ◌*◌, ◌≤◌, length};
ghost use Rattle.std.proofs.lemmas.List.Edits.{sets};
ghost use Rattle.octets.specs.Bytes.{be, three, words_bytes};
ghost use Rattle.octets.specs.Bits.{bits};

use crate::bits;

// What is written as a word of 64 bits: a word itself, and a double by its bits.
pub trait Word: Copy {
    ghost word: { Self → ℕ };

    fn word(self) -> u64
        ensures { result ≡ word self };
}

impl Word for u64 {
    ghost word = { λ w. w };

    fn word(self) -> u64 {
        self
    }
}

impl Word for f64 {
    ghost word = { bits };

    fn word(self) -> u64 {
        bits(self)
    }
}

// A big-endian u32: the low four bytes of x.
fn put_four(out: &mut [u8], at: usize, x: usize)
    requires { at + 4 ≤ length out.old }
    ensures { out.new ≡ sets out.old at (be 4 x) }
{
    out[at..at + 4].copy_from_slice(&x.to_be_bytes()[4..]);
}

// A big-endian u64. One function for this and `put_four`, which takes the low half of a usize, would be no plainer.
fn put_eight(out: &mut [u8], at: usize, x: u64)
    requires { at + 8 ≤ length out.old }
    ensures { out.new ≡ sets out.old at (be 8 x) }
{
    out[at..at + 8].copy_from_slice(&x.to_be_bytes());
}

// Three u32, one behind the other.
pub fn put_three(out: &mut [u8], at: usize, a: usize, b: usize, c: usize)
    requires { at + 12 ≤ length out.old }
    ensures { out.new ≡ sets out.old at (three a b c) }
{
    put_four(out, at, a);
    put_four(out, at + 4, b);
    put_four(out, at + 8, c);
}

// Words, one behind the other.
pub fn put_words<W: Word>(out: &mut [u8], at: usize, words: &[W])
    requires { at + 8 * length words.now ≤ length out.old }
    ensures { out.new ≡ sets out.old at (words_bytes (map W.word words.now)) }
{
    for (i, w) in words.iter().enumerate() {
        put_eight(out, at + 8 * i, w.word());
    }
}
