// The writer: a list of steps, six bytes each, 1 to 1,008 of them, into the blocks of a script file in a lent
// output (document 01, Scripts; document 02, P2; numbers 8, 7 or 11, and 9 in that order). A refusal changes no
// byte of the output, and the bytes after the file keep their value. The definition is specs/Write; that reading
// back what was written gives the same steps, and writing the steps of an accepted file the same bytes, is
// proofs/RoundTrip.
#![tactic(auto)]

ghost use Rattle.std.specs.Prelude.{◌≡◌, ◌+◌, ◌*◌, ◌<◌, ◌≤◌, length};
ghost use Rattle.lists.specs.Put.{put};
ghost use Rattle.script_writer.specs.Write.{header, block_of, blocks_to, written, left_by, of_written, written_table};

use lists::{byte_at, is_whole};
use script::{Layout, Refusal, check_steps, check_word, last_mark};

// The first six bytes of block k of n.
fn header(list: &[u8], k: usize, n: usize) -> [u8; 6]
    requires { (k < 12) × (504 * k ≤ length list.now) }
    ensures { result ≡ header list.now k n }
{
    let here = ((list.len() - 504 * k) / 6).min(84);
    let [low, high] = (k as u16).to_le_bytes();
    [low, high, here as u8, last_mark(k + 1 == n), 0, 0]
}

// Block k of n, whole: the header, the places and the check.
fn put_block(list: &[u8], k: usize, n: usize, block: &mut [u8])
    requires { (k < 12) × (504 * k ≤ length list.now) × (length block.old ≡ 512) }
    ensures { block.new ≡ block_of list.now k n }
{
    block[..6].copy_from_slice(&header(list, k, n));
    for i in 0..504 {
        block[6 + i] = byte_at(list, 504 * k + i);
    }
    let [low, high] = (check_word(&block[..510]) as u16).to_le_bytes();
    block[510] = low;
    block[511] = high;
}

// All n blocks.
#[tactic(auto, using(crate::proofs::Blocks::blocks_back), unfolding(crate::specs::Write::blocks_to))]
fn put_blocks(list: &[u8], n: usize, out: &mut [u8])
    requires { (n ≤ 12) × (504 * n ≤ length list.now + 503) × (512 * n ≤ length out.old) }
    ensures { out.new ≡ put out.old 0 (blocks_to list.now n n) }
{
    for k in 0..n {
        put_block(list, k, n, &mut out[512 * k..512 * k + 512]);
    }
}

// A list of steps written as a file: 8, then 7 or 11, then 9; else the number of blocks.
#[tactic(auto, unfolding(crate::specs::Write::written))]
pub fn write(list: &[u8], out: &mut [u8]) -> Result<usize, Refusal>
    ensures value { result ≡ written list.now (length out.old) }
    ensures result_value { of_written result ≡ written_table list.now (length out.old) }
    ensures out_after { out.new ≡ left_by result list.now out.old }
{
    if !is_whole(list.len(), 6, 1008) {
        return Err(Refusal::Length);
    }
    check_steps(list, Layout::Plain, list.len() / 6)?;
    let n = list.len().div_ceil(504);
    if out.len() < 512 * n {
        return Err(Refusal::Room);
    }
    put_blocks(list, n, out);
    Ok(n)
}
