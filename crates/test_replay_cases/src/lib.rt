// The oracle's list of cases, read from standard input (oracle/README.md has its form): its words, what a case is, the arrays before a call
// and the hash of those after it.
#![tactic(auto)]

pub mod run_case; // One case of the oracle's list: its call on arrays of its lengths, and whether what came back is what the list says

ghost use Rattle.std.specs.Prelude.{◌≡◌, ◌≤◌, true, ◌↔◌};

use octets::{bits, float};

// ---- words

// The next word of the list, 0 past its end.
fn next() -> u64 {
    let mut b = [0u8; 8];
    io::read_full(0, &mut b);
    u64::from_le_bytes(b)
}

// The list's generator and hash.
fn step(x: u64) -> u64 {
    let y = x ^ (x << 13);
    let z = y ^ (y >> 7);
    z ^ (z << 17)
}

// ---- what a case is

#[derive(Clone, Copy)]
pub struct Asked {
    pub function: u64,
    pub first: u64,
    pub second: u64,
    pub third: u64,
    pub fourth: u64,
    pub fifth: u64,
}

#[derive(Clone, Copy)]
pub struct Lengths {
    pub a: u64,
    pub b: u64,
    pub work: u64,
    pub result: u64,
}

#[derive(Clone, Copy)]
pub struct Inputs {
    pub old: u64,
    pub kind: u64,
    pub seed: u64,
    pub scale: u64,
}

#[derive(Clone, Copy)]
pub struct Wanted {
    pub answer: u64,
    pub place: u64,
    pub index: u64,
    pub count: u64,
    pub hash: u64,
    pub shown: u64,
}

fn read_asked() -> Asked {
    Asked {
        function: next(),
        first: next(),
        second: next(),
        third: next(),
        fourth: next(),
        fifth: next(),
    }
}

fn read_lengths() -> Lengths {
    Lengths {
        a: next(),
        b: next(),
        work: next(),
        result: next(),
    }
}

fn read_inputs() -> Inputs {
    Inputs {
        old: next(),
        kind: next(),
        seed: next(),
        scale: next(),
    }
}

fn read_wanted() -> Wanted {
    Wanted {
        answer: next(),
        place: next(),
        index: next(),
        count: next(),
        hash: next(),
        shown: next(),
    }
}

// A case of the list: its call, the arrays' lengths, what they hold before and what must come back.
#[derive(Clone, Copy)]
pub struct Case {
    pub asked: Asked,
    pub lengths: Lengths,
    pub inputs: Inputs,
    pub wanted: Wanted,
}

pub fn read_case() -> Case {
    Case {
        asked: read_asked(),
        lengths: read_lengths(),
        inputs: read_inputs(),
        wanted: read_wanted(),
    }
}

// Whether arrays that are so long have room for the case's.
pub fn room(l: Lengths, a: usize, b: usize, work: usize, res: usize) -> bool
    ensures { (result ≡ true) ↔ ((l.a ≤ a) × (l.b ≤ b) × (l.work ≤ work) × (l.result ≤ res)) }
{
    (l.a as usize <= a)
        & (l.b as usize <= b)
        & (l.work as usize <= work)
        & (l.result as usize <= res)
}

// ---- the arrays before a call

// The input that the generator's state x stands for.
fn input(kind: u64, x: u64, scale: f64) -> f64 {
    match kind {
        0 => float(next()),
        1 => (float(0x3ff0_0000_0000_0000 | (x >> 12)) - 1.5) * scale,
        2 => (float(0x4330_0000_0000_0000 | (x >> 61)) - 4503599627370500.0) * scale,
        _ => (float(x) - 0.0) * scale,
    }
}

// Fills cells with inputs, and comes back with the generator's state behind them.
fn give(cells: &mut [f64], kind: u64, seed: u64, scale: f64) -> u64 {
    let mut x = seed;
    for cell in cells.iter_mut() {
        x = step(x);
        *cell = input(kind, x, scale);
    }
    x
}

// Fills cells with old contents, whose words count on from the first.
fn leave(cells: &mut [f64], first: u64) {
    let mut w = first;
    for cell in cells.iter_mut() {
        *cell = float(w);
        w = w.wrapping_add(1);
    }
}

// The two inputs, of which the second goes on where the first ends.
pub fn give_both(i: Inputs, a: &mut [f64], b: &mut [f64]) {
    let scale = float(i.scale);
    let x = give(a, i.kind, i.seed, scale);
    give(b, i.kind, x, scale);
}

pub fn leave_both(i: Inputs, work: &mut [f64], res: &mut [f64]) {
    leave(work, i.old);
    leave(res, i.old.wrapping_add(work.len() as u64));
}

// ---- the arrays after a call

fn hash(cells: &[f64], so_far: u64) -> u64 {
    cells.iter().fold(so_far, |h, x| step(h ^ bits(*x)))
}

// The hash of one array, and of the two that a call leaves.
fn hashed(cells: &[f64]) -> u64 {
    hash(cells, 0x9e37_79b9_7f4a_7c15)
}

pub fn hashed2(work: &[f64], res: &[f64]) -> u64 {
    hash(res, hashed(work))
}

// The word of cell k, or one that no number has.
fn word_at(cells: &[f64], k: usize) -> u64 {
    cells.get(k).map_or(0x7ff8_0000_0000_0001, |x| bits(*x))
}

// Whether the list's next words, so many, are those of the cells. All of them are read.
fn shows(cells: &[f64], words: u64) -> bool {
    let mut same = true;
    for k in 0..words as usize {
        same &= word_at(cells, k) == bits(float(next()));
    }
    same
}

// Whether this is the hash that is wanted, and the cells are those that the list shows.
fn agrees(wanted: Wanted, h: u64, cells: &[f64]) -> bool {
    shows(cells, wanted.shown) & (h == wanted.hash)
}

pub fn row_agrees(wanted: Wanted, row: &[f64]) -> bool {
    agrees(wanted, hashed(row), row)
}

pub fn arrays_agree(wanted: Wanted, work: &[f64], res: &[f64]) -> bool {
    agrees(wanted, hashed2(work, res), res)
}
