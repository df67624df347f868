// The entries that a C codec calls. Each hands on to the function of its name and keeps its promise. A slice is a pointer and
// a length in C; what comes back is a struct of the header, of up to four numbers, or one number. The number at a name's end is the
// header's major version, so that a program built with a header of another one doesn't link. `crewelmarsh_c` exports them.
#![tactic(auto)]

ghost use Rattle.std.specs.Prelude.{◌≡◌};
ghost use Rattle.eigen_symmetric_eigen.specs.SymmetricEigen.{eigen};
ghost use Rattle.eigen_steps.specs.Steps.{started, stepped, finished};
ghost use Rattle.lanczos.specs.Lanczos.{lanczos};
ghost use Rattle.leading.specs.Leading.{leading};
ghost use Rattle.svd.specs.Svd.{svd};
ghost use Rattle.svd.specs.VtRow.{row_span, extent_of};
ghost use Rattle.solve.specs.Solve.{solve, pseudo_inverse};
ghost use Rattle.qr_q.specs.QrQ.{qr_q};
ghost use Rattle.block_read.specs.Held.{shape_of};
ghost use Rattle.block_read.specs.Lookup.{found, copied};
ghost use Rattle.block_write.specs.Writing.{given, doubles, length_of, written};
ghost use Rattle.covariance.specs.Covariance.{covariance};
ghost use Rattle.covariance_sums.specs.Sums.{sums};
ghost use Rattle.store_definition.specs.Owners.{set_up2, reset, put_for, length_for, fetch_for, drop_for};
ghost use Rattle.tally_definition.specs.Tallies.{outcome};

use answers::Answer;
use block_read::lookup::{Found, Shape};
use eigen_steps::EigenRun;
use svd::vt_row::Extent;
use tally_definition::Tally;

pub fn crewelmarsh_symmetric_eigen_abi5(
    n: usize,
    limit: usize,
    edition: usize,
    matrix: &[f64],
    work: &mut [f64],
    res: &mut [f64],
) -> Answer
    ensures { (result, work.new, res.new) ≡ eigen n limit edition matrix.now work.old res.old }
{
    eigen_symmetric_eigen::symmetric_eigen(n, limit, edition, matrix, work, res)
}

// ---- the same one pass at a time

pub fn crewelmarsh_eigen_start_abi5(
    n: usize,
    limit: usize,
    edition: usize,
    matrix: &[f64],
    work: &mut [f64],
    res: &mut [f64],
) -> EigenRun
    ensures { (result, work.new, res.new) ≡ started n limit edition matrix.now work.old res.old }
{
    EigenRun::start(n, limit, edition, matrix, work, res)
}

pub fn crewelmarsh_eigen_step_abi5(run: EigenRun, work: &mut [f64], res: &mut [f64]) -> EigenRun
    ensures { (result, work.new, res.new) ≡ stepped run work.old res.old }
{
    run.step(work, res)
}

pub fn crewelmarsh_eigen_finish_abi5(run: EigenRun, work: &mut [f64], res: &mut [f64]) -> EigenRun
    ensures { (result, work.new, res.new) ≡ finished run work.old res.old }
{
    run.finish(work, res)
}

// ---- the leading pairs alone

pub fn crewelmarsh_lanczos_abi5(
    n: usize,
    k: usize,
    limit: usize,
    edition: usize,
    matrix: &[f64],
    start: &[f64],
    work: &mut [f64],
    answer: &mut [f64],
) -> Answer
    ensures { (result, work.new, answer.new) ≡ lanczos n k limit edition matrix.now start.now work.old answer.old }
{
    lanczos::lanczos(n, k, limit, edition, matrix, start, work, answer)
}

// The same layout from an eigen result.
pub fn crewelmarsh_leading_abi5(n: usize, k: usize, res: &[f64], out: &mut [f64]) -> Answer
    ensures { (result, out.new) ≡ leading n k res.now out.old }
{
    leading::leading(n, k, res, out)
}

// ---- the others

pub fn crewelmarsh_svd_abi5(
    m: usize,
    n: usize,
    want_u: usize,
    want_vt: usize,
    limit: usize,
    matrix: &[f64],
    work: &mut [f64],
    res: &mut [f64],
) -> Answer
    ensures { (result, work.new, res.new) ≡ svd m n want_u want_vt limit matrix.now work.old res.old }
{
    svd::svd(m, n, want_u, want_vt, limit, matrix, work, res)
}

pub fn crewelmarsh_vt_row_extent_abi5(
    m: usize,
    n: usize,
    has_u: usize,
    has_vt: usize,
    result_len: usize,
    j: usize,
) -> Extent
    ensures { result ≡ extent_of (row_span result_len m n has_u has_vt j) }
{
    svd::vt_row::vt_row_extent(m, n, has_u, has_vt, result_len, j)
}

pub fn crewelmarsh_solve_abi5(
    m: usize,
    n: usize,
    has_u: usize,
    has_vt: usize,
    tolerance: f64,
    decomposition: &[f64],
    right_side: &[f64],
    answer: &mut [f64],
) -> Answer
    ensures { (result, answer.new) ≡ solve m n has_u has_vt tolerance decomposition.now right_side.now answer.old }
{
    solve::solve(
        m,
        n,
        has_u,
        has_vt,
        tolerance,
        decomposition,
        right_side,
        answer,
    )
}

pub fn crewelmarsh_pseudo_inverse_abi5(
    m: usize,
    n: usize,
    has_u: usize,
    has_vt: usize,
    tolerance: f64,
    decomposition: &[f64],
    answer: &mut [f64],
) -> Answer
    ensures { (result, answer.new) ≡ pseudo_inverse m n has_u has_vt tolerance decomposition.now answer.old }
{
    solve::pseudo_inverse(m, n, has_u, has_vt, tolerance, decomposition, answer)
}

pub fn crewelmarsh_qr_q_abi5(m: usize, k: usize, matrix: &[f64], answer: &mut [f64]) -> Answer
    ensures { (result, answer.new) ≡ qr_q m k matrix.now answer.old }
{
    qr_q::qr_q(m, k, matrix, answer)
}

// ---- transform blocks

pub fn crewelmarsh_block_check_abi5(block: &[u8]) -> Shape
    ensures { result ≡ shape_of block.now }
{
    block_read::lookup::shape_of(block)
}

pub fn crewelmarsh_block_find_abi5(own: &[u8], main_block: &[u8], kind: usize) -> Found
    ensures { result ≡ found own.now main_block.now kind }
{
    block_read::lookup::locate(own, main_block, kind)
}

pub fn crewelmarsh_block_copy_abi5<'a>(
    own: &'a [u8],
    main_block: &'a [u8],
    kind: usize,
    out: &mut [f64],
) -> Answer
    ensures { (result, out.new) ≡ copied own.now main_block.now kind out.old }
{
    block_read::lookup::copy(own, main_block, kind, out)
}

pub fn crewelmarsh_block_length_abi5(
    rows: usize,
    columns: usize,
    parts: usize,
    kind1: usize,
    kind2: usize,
    kind3: usize,
) -> usize
    ensures { result ≡ length_of rows columns parts kind1 kind2 kind3 }
{
    block_write::length_of(rows, columns, parts, kind1, kind2, kind3)
}

pub fn crewelmarsh_block_write_abi5(
    rows: usize,
    columns: usize,
    parts: usize,
    kind1: usize,
    numbers1: &[f64],
    kind2: usize,
    numbers2: &[f64],
    kind3: usize,
    numbers3: &[f64],
    out: &mut [u8],
) -> Answer
    ensures { (result, out.new) ≡ written rows columns parts (given parts (doubles kind1 numbers1.now) (doubles kind2 numbers2.now) (doubles kind3 numbers3.now)) out.old }
{
    block_write::write_doubles(
        rows, columns, parts, kind1, numbers1, kind2, numbers2, kind3, numbers3, out,
    )
}

pub fn crewelmarsh_covariance_abi5(
    n: usize,
    count: usize,
    samples: &[i16],
    matrix: &mut [f64],
) -> Answer
    ensures { (result, matrix.new) ≡ covariance n count samples.now matrix.old }
{
    covariance::covariance(n, count, samples, matrix)
}

pub fn crewelmarsh_sums_abi5(n: usize, count: usize, samples: &[i16], out: &mut [f64]) -> Answer
    ensures { (result, out.new) ≡ sums n count samples.now out.old }
{
    covariance_sums::sums(n, count, samples, out)
}

// ---- the store of two owners

pub fn crewelmarsh_store_setup_abi5(
    quota0: usize,
    quota1: usize,
    list: &mut [usize],
    tiles: &[u16],
    bytes: &[u8],
) -> Answer
    ensures { (result, list.new) ≡ set_up2 list.old tiles.now bytes.now quota0 quota1 }
{
    store::quotas::set_up(quota0, quota1, list, tiles, bytes)
}

pub fn crewelmarsh_store_reset_abi5(list: &mut [usize], tiles: &[u16], bytes: &[u8]) -> Answer
    ensures { (result, list.new) ≡ reset list.old tiles.now bytes.now }
{
    store::quotas::reset(list, tiles, bytes)
}

pub fn crewelmarsh_store_put_abi5(
    owner: usize,
    list: &mut [usize],
    tiles: &mut [u16],
    bytes: &mut [u8],
    tile: u16,
    block: &[u8],
) -> Answer
    ensures { (result, list.new, tiles.new, bytes.new) ≡ put_for owner list.old tiles.old bytes.old tile block.now }
{
    store::put(owner, list, tiles, bytes, tile, block)
}

pub fn crewelmarsh_store_length_abi5(
    owner: usize,
    list: &[usize],
    tiles: &[u16],
    bytes: &[u8],
    tile: u16,
) -> Answer
    ensures { result ≡ length_for owner list.now tiles.now bytes.now tile }
{
    store::length_of(owner, list, tiles, bytes, tile)
}

pub fn crewelmarsh_store_fetch_abi5(
    owner: usize,
    list: &[usize],
    tiles: &[u16],
    bytes: &[u8],
    tile: u16,
    out: &mut [u8],
) -> Answer
    ensures { (result, out.new) ≡ fetch_for owner list.now tiles.now bytes.now tile out.old }
{
    store::fetch(owner, list, tiles, bytes, tile, out)
}

pub fn crewelmarsh_store_drop_abi5(
    owner: usize,
    list: &mut [usize],
    tiles: &mut [u16],
    bytes: &mut [u8],
    tile: u16,
) -> Answer
    ensures { (result, list.new, tiles.new, bytes.new) ≡ drop_for owner list.old tiles.old bytes.old tile }
{
    store::drop_tile(owner, list, tiles, bytes, tile)
}

// ---- the tally

pub fn crewelmarsh_tally_add_abi5(tally: &mut Tally, answer: usize, passes: usize) -> usize
    ensures { record { refusal = result; tally = tally.new } ≡ outcome tally.old answer passes }
{
    match tally::added(*tally, answer, passes) {
        Ok(next) => {
            *tally = next;
            0
        }
        Err(refusal) => usize::from(refusal),
    }
}
