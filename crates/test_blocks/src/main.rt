// Runs the stored cases of standard input through the reader, the lookup and the writer of transform blocks, and writes what they give. Numbers come in
// four bytes, the highest first, and go out in eight. The first is how many cases there are. A case is
//   1, length, the block                                                    the nine numbers of the reader's record
//   2, kind, length, length, the own block, the main block                  which block, start, count, rows, columns, the answer for each block; the
//                                                                           part's length and the part
//   3, rows, columns, count, three kinds                                    the block's length
//   4, rows, columns, count, three parts (kind, length, numbers of eight    the answer and the destination, which holds 238 before
//      bytes each), the destination's length
// What is read and what must be written are made by oracle/src/blocks.rs.
#![tactic(auto)]

ghost use Rattle.std.specs.Prelude.{◌<◌, ◌≤◌, length};

// The next u32 of standard input.
fn next() -> usize
    ensures { result < 4294967296 }
{
    let mut b = [0u8; 4];
    io::read_full(0, &mut b);
    u32::from_be_bytes(b) as usize
}

// A length of at most that.
fn bounded(most: usize) -> usize
    ensures { result ≤ most }
{
    let n = next();
    if most < n { 0 } else { n }
}

fn show(x: usize) {
    io::write_all(1, &x.to_be_bytes());
}

// The next numbers of eight bytes, as many as out has.
fn words(out: &mut [u64]) {
    for w in out.iter_mut() {
        let mut b = [0u8; 8];
        io::read_full(0, &mut b);
        *w = u64::from_be_bytes(b);
    }
}

fn shown(t: &[u8]) {
    let r = block_read::lookup::read(t);
    let numbers = [
        r.answer.answer,
        r.rows,
        r.columns,
        r.values_at,
        r.values,
        r.matrix_at,
        r.matrix,
        r.inverse_at,
        r.inverse,
    ];
    for x in numbers {
        show(x);
    }
}

fn reads() {
    let n = bounded(8192);
    let mut a = [0u8; 8192];
    io::read_full(0, &mut a[..n]);
    shown(&a[..n]);
}

fn found<'a>(own: &'a [u8], main: &'a [u8], kind: usize) {
    let f = block_read::lookup::locate(own, main, kind);
    let numbers = [
        f.block,
        f.start,
        f.count,
        f.rows,
        f.columns,
        f.own_answer,
        f.main_answer,
    ];
    for x in numbers {
        show(x);
    }
    let r = block_read::lookup::find(own, main, kind);
    show(r.len());
    io::write_all(1, r);
}

fn finds() {
    let kind = next();
    let n = bounded(8192);
    let m = bounded(8192);
    let mut a = [0u8; 8192];
    let mut b = [0u8; 8192];
    io::read_full(0, &mut a[..n]);
    io::read_full(0, &mut b[..m]);
    found(&a[..n], &b[..m], kind);
}

// A part: its kind and its numbers, which are read to the front of room.
fn part<'a>(room: &'a mut [u64]) -> (usize, &'a [u64])
    ensures { length result.1.now ≤ length room.old }
{
    let kind = next();
    let n = bounded(room.len());
    words(&mut room[..n]);
    (kind, &room[..n])
}

// The sizes, three parts and a destination.
fn written(p1: &mut [u64], p2: &mut [u64], p3: &mut [u64], out: &mut [u8]) {
    let rows = next();
    let columns = next();
    let count = next();
    let (k1, p1) = part(p1);
    let (k2, p2) = part(p2);
    let (k3, p3) = part(p3);
    let n = bounded(out.len());
    let out = &mut out[..n];
    show(block_write::write(rows, columns, count, k1, p1, k2, p2, k3, p3, out).answer);
    io::write_all(1, out);
}

fn writes() {
    let mut p1 = [0u64; 64];
    let mut p2 = [0u64; 64];
    let mut p3 = [0u64; 64];
    let mut out = [238u8; 8192];
    written(&mut p1, &mut p2, &mut p3, &mut out);
}

fn lengths() {
    let rows = next();
    let columns = next();
    let count = next();
    let k1 = next();
    let k2 = next();
    let k3 = next();
    show(block_write::length_of(rows, columns, count, k1, k2, k3));
}

fn case() {
    match next() {
        1 => reads(),
        2 => finds(),
        3 => lengths(),
        _ => writes(),
    }
}

fn main() {
    for _ in 0..next() {
        case();
    }
}
