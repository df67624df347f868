// The writer of the program eigtext's answer. A place is stored to by a call that minds the end, so that no function below asks for room.
ghost use Rattle.std.specs.Prelude.{◌≡◌, ◌<◌, ◌≤◌, ◌+◌, ◌^◌, set, length};
ghost use Rattle.std.proofs.lemmas.List.Edits.{sets};
ghost use Rattle.text.specs.Writing.{glyph, digits, places, number, group, lines, written, bits_at, shown, first_line, answer_text, bad_text};
ghost use Rattle.text.specs.Stores.{append};

use crate::separator;
use answers::Answer;
use octets::bits;

// A store that minds the end.
pub fn put<T: Copy>(out: &mut [T], at: usize, x: T)
    ensures { out.new ≡ set out.old at x }
{
    if at < out.len() {
        out[at] = x;
    }
}

// Bytes, from `at` on; the place behind them.
pub fn put_all(out: &mut [u8], at: usize, bytes: &[u8]) -> usize
    requires { at + length bytes.now < 2 ^ 64 }
    ensures { (result, out.new) ≡ append (at, out.old) bytes.now }
{
    for (i, &b) in bytes.iter().enumerate() {
        put(out, at + i, b);
    }
    at + bytes.len()
}

#[tactic(auto, unfolding(crate::specs::Writing::glyph))]
fn glyph(d: u64) -> u8
    requires { d < 16 }
    ensures { result ≡ glyph d }
{
    if d < 10 { b'0' + d as u8 } else { 87 + d as u8 }
}

// The last k digits of n in that base, from `at` on.
fn spell(out: &mut [u8], at: usize, base: u64, k: usize, n: u64)
    requires { (at ≤ 65536) × (0 < base) × (base ≤ 16) × (k ≤ 20) }
    ensures { out.new ≡ sets out.old at (digits base k n) }
{
    let mut rest = n;
    for i in (0..k).rev() {
        put(out, at + i, glyph(rest % base));
        rest /= base;
    }
}

// How many decimal digits n has.
fn places(n: usize) -> usize
    ensures { result ≡ places n }
{
    let mut rest = n / 10;
    for k in 1..20 {
        if rest == 0 {
            return k;
        }
        rest /= 10;
    }
    20
}

// The decimal number n and the byte behind it, from `at` on; the place behind both.
pub fn put_number(out: &mut [u8], at: usize, n: usize, end: u8) -> usize
    requires { at ≤ 1000 }
    ensures { (result, out.new) ≡ append (at, out.old) (number n end) }
{
    let k = places(n);
    spell(out, at, 10, k, n as u64);
    put(out, at + k, end);
    at + k + 1
}

// The bits of number k of a result, and a NaN's behind its end.
#[tactic(auto, unfolding(crate::specs::Writing::bits_at))]
fn bits_at(res: &[f64], k: usize) -> u64
    ensures { result ≡ bits_at res.now k }
{
    bits(res.get(k).copied().unwrap_or(f64::NAN))
}

// Word k of a result, and what ends it.
fn put_word(out: &mut [u8], at: usize, n: usize, k: usize, res: &[f64])
    requires { (0 < n) × (at ≤ 65000) × (k ≤ 2048) }
    ensures { out.new ≡ sets out.old at (group n (bits_at res.now) k) }
{
    spell(out, at, 16, 16, bits_at(res, k));
    put(out, at + 16, separator(n, k));
}

// The first count words of a result, n a line, from `at` on; the place behind them.
fn put_lines(out: &mut [u8], at: usize, n: usize, count: usize, res: &[f64]) -> usize
    requires { (at ≤ 84) × (0 < n) × (count ≤ 1056) }
    ensures { (result, out.new) ≡ append (at, out.old) (lines n (bits_at res.now) count) }
{
    for k in 0..count {
        put_word(out, at + 17 * k, n, k, res);
    }
    at + 17 * count
}

// The line of an answer's four numbers; the place behind it.
fn put_answer(out: &mut [u8], a: Answer) -> usize
    ensures { (result, out.new) ≡ append (0, out.old) (first_line a.answer a.place a.index a.count) }
{
    let at = put_number(out, 0, a.answer, b' ');
    let at = put_number(out, at, a.place, b' ');
    let at = put_number(out, at, a.index, b' ');
    put_number(out, at, a.count, b'\n')
}

// Values and vectors are shown where the answer is 0 and there are any. A text has no n above 32.
#[tactic(auto, unfolding(crate::specs::Writing::shown))]
fn shown(answer: usize, n: usize) -> bool
    ensures { result ≡ shown answer n }
{
    answer == 0 && 1 <= n && n <= 32
}

// Writes an answer's text to the front of out, as far as there is room, and gives the text's length.
pub fn write(a: Answer, n: usize, res: &[f64], out: &mut [u8]) -> usize
    ensures { (result, out.new) ≡ written (answer_text a.answer a.place a.index a.count n res.now) out.old }
{
    let at = put_answer(out, a);
    if shown(a.answer, n) {
        put_lines(out, at, n, n + n * n, res)
    } else {
        at
    }
}

// The same for a text that is none: the line `bad text`.
#[tactic(auto, unfolding(crate::specs::Writing::bad_text))]
pub fn write_bad(out: &mut [u8]) -> usize
    ensures { (result, out.new) ≡ written bad_text out.old }
{
    put_all(out, 0, b"bad text\n")
}
