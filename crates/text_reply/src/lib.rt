// Text in, text out: what eigtext does, on slices.
#![tactic(auto)]

ghost use Rattle.std.specs.Prelude.{◌≡◌, ◌*◌, ◌≤◌, length, take};
ghost use Rattle.text.specs.Writing.{written};
ghost use Rattle.eigen_symmetric_eigen.specs.SymmetricEigen.{eigen};
ghost use Rattle.text_reply.specs.Reply.{shown_of, solved, reply};

use text::Reading;

// The call, in edition 1, and its answer's text.
fn solve(
    reading: Reading,
    matrix: &[f64],
    work: &mut [f64],
    res: &mut [f64],
    out: &mut [u8],
) -> usize
    ensures { (result, out.new) ≡ written (shown_of reading.n (eigen reading.n reading.limit 1 matrix.now work.old res.old)) out.old }
{
    let Reading { n, limit } = reading;
    let a = eigen_symmetric_eigen::symmetric_eigen(n, limit, 1, matrix, work, res);
    text::write::write(a, n, res, out)
}

// The same for the matrix that stands at the front of the numbers, with a work array and a result of our own.
fn solve_front(reading: Reading, numbers: &[f64], out: &mut [u8]) -> usize
    requires { (reading.n ≤ 32) × (reading.n * reading.n ≤ length numbers.now) }
    ensures { (result, out.new) ≡ written (solved reading.n reading.limit (take (reading.n * reading.n) numbers.now)) out.old }
{
    let count = reading.n * reading.n;
    let whole = reading.n + count;
    let mut work = [0.0f64; 32];
    let mut result = [0.0f64; 1056];
    solve(
        reading,
        &numbers[..count],
        &mut work[..reading.n],
        &mut result[..whole],
        out,
    )
}

// Writes the answer to the text t to the front of out, as far as there is room, and gives the answer's length. 18,036 bytes are room for every one.
pub fn reply(t: &[u8], out: &mut [u8]) -> usize
    ensures out_after { (result, out.new) ≡ written (reply t.now) out.old }
    ensures upper_bound { 18036 ≤ length out.old → result ≤ length out.new }
{
    let mut numbers = [0.0f64; 1024];
    match text::read::read(t, &mut numbers) {
        Some(reading) => solve_front(reading, &numbers, out),
        None => text::write::write_bad(out),
    }
}
