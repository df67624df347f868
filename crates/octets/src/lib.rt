// Doubles by their 64 bits, both ways, and whole numbers read from big-endian bytes.
#![tactic(auto)]

pub mod write; // Whole numbers and the bits of doubles written as big-endian bytes

ghost use Rattle.std.specs.Prelude.{◌≡◌, map, ◌+◌, ◌*◌, ◌<◌, ◌≤◌, length};
ghost use Rattle.octets.specs.Bytes.{num, words_at};
ghost use Rattle.octets.specs.Bits.{float, bits};

// ---- doubles by their bits

// The f64 with those bits, and for a NaN's bits the NaN.
pub fn float(b: u64) -> f64
    ensures { result ≡ float b }
{
    if b % 0x8000_0000_0000_0000 <= 0x7ff0_0000_0000_0000 {
        f64::from_bits(b)
    } else {
        f64::NAN
    }
}

// The bits of x, and 7ff8000000000000 for a NaN.
#[tactic(auto, unfolding(crate::specs::Bits::bits))]
pub fn bits(x: f64) -> u64
    ensures { result ≡ bits x }
{
    if x.is_nan() {
        0x7ff8_0000_0000_0000
    } else {
        x.to_bits()
    }
}

// ---- reading

// The big-endian u32 at `at`.
#[tactic(auto, unfolding(crate::specs::Bytes::num))]
pub fn number(t: &[u8], at: usize) -> usize
    requires { at + 4 ≤ length t.now }
    ensures value { result ≡ num 4 t.now at }
    ensures upper_bound { result < 4294967296 }
{
    u32::from_be_bytes([t[at], t[at + 1], t[at + 2], t[at + 3]]) as usize
}

// The big-endian u64 at `at`, a sum of bytes: by `from_be_bytes` the compiler makes `floats` a loop of two lanes, which takes 1.4 times as long.
#[tactic(auto, unfolding(crate::specs::Bytes::num))]
fn word(t: &[u8], at: usize) -> u64
    requires { at + 8 ≤ length t.now }
    ensures { result ≡ num 8 t.now at }
{
    let [a, b, c, d] = [t[at], t[at + 1], t[at + 2], t[at + 3]].map(u64::from);
    let [e, f, g, h] = [t[at + 4], t[at + 5], t[at + 6], t[at + 7]].map(u64::from);
    let high = ((a * 256 + b) * 256 + c) * 256 + d;
    let low = ((e * 256 + f) * 256 + g) * 256 + h;
    high * 4294967296 + low
}

// As many doubles as out has, from the front of t.
pub fn floats(t: &[u8], out: &mut [f64])
    requires { 8 * length out.old ≤ length t.now }
    ensures { out.new ≡ map float (words_at t.now 0 (length out.old)) }
{
    for (i, x) in out.iter_mut().enumerate() {
        *x = float(word(t, 8 * i));
    }
}
