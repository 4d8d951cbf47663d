// Script files: blocks and their check, the steps of a file, the checked file, and the reader as a position
// beside the caller's bytes (document 01, Scripts; numbers 8 and 6, and then 7 or, by document 02, P2, 11 for
// the first step that does not pass). The definitions are in specs/: Block, File, Reader, Numbers. The reader as
// a struct over the bytes is the crate script_reader, and making a file is the crate script_writer.
#![tactic(auto)]

ghost use Rattle.std.specs.Prelude.{◌≡◌, ◌+◌, ◌*◌, ◌%◌, ◌/◌, ◌≤◌, take, drop};
ghost use Rattle.lists.specs.Numbers.{returned};
ghost use Rattle.script_steps.specs.Step.{step_read_number, bytes_table};
ghost use Rattle.script.specs.Block.{word_sum, check_word, last_mark, count_legal, unused_zero, content_legal, block_legal};
ghost use Rattle.script.specs.File.{first_bad_block, step_count, step_place, step_at, steps_checked, checked};
ghost use Rattle.script.specs.Reader.{next_of, turned};
ghost use Rattle.script.specs.Numbers.{of_refusal, of_checked, of_next, next_table, steps_table, checked_table};

use lists::{is_whole, wide};
use script_steps::{Fault, Step, read_at};

// How steps stand in a list of bytes: one after another, or in the blocks of a file.
#[derive(Clone, Copy)]
pub enum Layout {
    Plain,
    Blocks,
}

// Why a file, a step list or an output is refused.
#[derive(Clone, Copy)]
pub enum Refusal {
    Length,
    Block(usize),
    Step(usize, Fault),
    Room,
}

impl Refusal {
    // Document 01's number.
    pub fn number(self) -> u8
        ensures { result ≡ (of_refusal self).number }
    {
        match self {
            Refusal::Block(_) => 6,
            Refusal::Step(_, why) => why.number(),
            Refusal::Length => 8,
            Refusal::Room => 9,
        }
    }

    // The value returned beside it; 0 where nothing more is returned.
    pub fn value(self) -> usize
        ensures { result ≡ (of_refusal self).value }
    {
        match self {
            Refusal::Block(k) => k,
            Refusal::Step(j, _) => j,
            Refusal::Length | Refusal::Room => 0,
        }
    }
}

// The reader as a position beside the caller's bytes: the number of the step that it stands at.
#[derive(Clone, Copy)]
pub struct Position {
    pub at: usize,
}

// What a turn of the reader gives: its answer, and where it then stands.
#[derive(Clone, Copy)]
pub struct Turn {
    pub next: Result<Option<Step>, Refusal>,
    pub place: Position,
}

// The sum of the words, modulo 65,536.
#[tactic(auto, using(crate::proofs::Sum::sum_turn, crate::proofs::Sum::sum_none))]
pub fn word_sum(list: &[u8]) -> usize
    ensures { result ≡ word_sum list.now % 65536 }
{
    let mut sum: u16 = 0;
    for i in 0..list.len() / 2 {
        sum = sum.wrapping_add(u16::from_le_bytes([list[2 * i], list[2 * i + 1]]));
    }
    usize::from(sum)
}

// The check of a block whose other bytes are these.
pub fn check_word(front: &[u8]) -> usize
    ensures { result ≡ check_word front.now }
{
    (65537 - word_sum(front)) % 65536
}

// Byte 3 of a block.
pub fn last_mark(last: bool) -> u8
    ensures { result ≡ last_mark last }
{
    u8::from(last)
}

// Whether a block may have so many steps.
fn is_count(count: u8, last: bool) -> bool
    ensures { result ≡ count_legal count last }
{
    if last {
        (1..=84).contains(&count)
    } else {
        count == 84
    }
}

// Whether the places after the first `count` steps are zero.
fn is_unused_zero(block: &[u8; 512], count: u8) -> bool
    ensures { result ≡ unused_zero block.now count }
{
    let from = (6 + 6 * usize::from(count)).min(510);
    block[from..510].iter().all(|b| *b == 0)
}

// The rules of a block apart from its number and its check.
#[tactic(auto, unfolding(crate::specs::Block::content_legal))]
fn is_content(block: &[u8; 512], last: bool) -> bool
    ensures { result ≡ content_legal block.now last }
{
    block[3] == last_mark(last)
        && block[4] == 0
        && block[5] == 0
        && is_count(block[2], last)
        && is_unused_zero(block, block[2])
}

// Whether bytes are block `number` of a file, the last of it or not.
#[tactic(auto, unfolding(crate::specs::Block::block_legal))]
pub fn is_block(block: &[u8], number: usize, last: bool) -> bool
    ensures { result ≡ block_legal block.now number last }
{
    let Some(block) = block.as_array::<512>() else {
        return false;
    };
    let found = usize::from(u16::from_le_bytes([block[0], block[1]]));
    let numbered = found == number;
    numbered && is_content(block, last) && (word_sum(block) == 1)
}

// The first block that breaks a rule, or the number of blocks: so says the definition, which `checked_table` cites.
pub fn first_bad_block(file: &[u8]) -> usize
    ensures { result ≡ first_bad_block file.now }
{
    let count = file.len() / 512;
    for k in 0..count {
        if !is_block(&file[512 * k..512 * k + 512], k, k + 1 == count) {
            return k;
        }
    }
    count
}

// The number of steps of a file.
#[tactic(auto, unfolding(crate::specs::File::step_count))]
pub fn step_count(file: &[u8]) -> usize
    ensures { result ≡ step_count file.now }
{
    let count = file.len() / 512;
    if count == 0 {
        return 0;
    }
    let last = count - 1;
    84 * last + wide(file[512 * last + 2])
}

// The bytes ahead of step j that are no steps.
fn ahead(layout: Layout, j: usize) -> usize
    ensures { (result + 6 * j ≡ step_place layout j) × (result ≤ 8 * (j / 84) + 6) }
{
    match layout {
        Layout::Plain => 0,
        Layout::Blocks => 8 * (j / 84) + 6,
    }
}

// The step at a place, or the refusal.
#[tactic(auto, using(script_steps::proofs::Codec::read_short, script_steps::proofs::Codec::short_number))]
pub fn step_at(list: &[u8], layout: Layout, j: usize) -> Result<Step, Fault>
    ensures value { result ≡ step_at layout list.now j }
    ensures result_value { step_read_number result ≡ bytes_table (take 6 (drop (step_place layout j) list.now)) }
{
    let skip = ahead(layout, j);
    if list.len() < skip || (list.len() - skip) / 6 <= j {
        return Err(Fault::Unallowed);
    }
    read_at(list, skip + 6 * j)
}

// So many steps checked: why the first that does not pass is refused, or that all of them pass.
#[tactic(auto, using(crate::proofs::StepLaws::steps_more, crate::proofs::StepLaws::steps_stop, crate::proofs::StepLaws::steps_done))]
pub fn check_steps(list: &[u8], layout: Layout, count: usize) -> Result<usize, Refusal>
    ensures value { result ≡ steps_checked layout list.now 0 count }
    ensures result_value { of_checked result ≡ steps_table layout list.now count (returned 0 count) }
{
    for j in 0..count {
        step_at(list, layout, j).map_err(|why| Refusal::Step(j, why))?;
    }
    Ok(count)
}

// A file checked: 8, then 6 over all blocks, then 7 or 11; else its number of steps.
#[tactic(auto, unfolding(crate::specs::File::checked))]
pub fn check_file(file: &[u8]) -> Result<usize, Refusal>
    ensures value { result ≡ checked file.now }
    ensures result_value { of_checked result ≡ checked_table file.now }
{
    if !is_whole(file.len(), 512, 12) {
        return Err(Refusal::Length);
    }
    let k = first_bad_block(file);
    if k < file.len() / 512 {
        return Err(Refusal::Block(k));
    }
    check_steps(file, Layout::Blocks, step_count(file))
}

// The reader's work: what it answers at step `at`. A refusal goes straight out.
#[tactic(auto, unfolding(crate::specs::Reader::next_of))]
pub fn next_at(file: &[u8], at: usize) -> Result<Option<Step>, Refusal>
    ensures { (result ≡ next_of file.now at) × (of_next result ≡ next_table file.now at) }
{
    if step_count(file) <= at {
        return Ok(None);
    }
    let step = step_at(file, Layout::Blocks, at).map_err(|why| Refusal::Step(at, why))?;
    Ok(Some(step))
}

impl Position {
    // At the first step.
    pub fn start() -> Self
        ensures { result.at ≡ 0 }
    {
        Position { at: 0 }
    }

    // The answer here, and the position after it: past a step that was handed out, and else the same.
    pub fn turn(self, file: &[u8]) -> Turn
        ensures value { result ≡ turned file.now self.at }
        ensures next_value { of_next result.next ≡ next_table file.now self.at }
    {
        let next = next_at(file, self.at);
        let Ok(Some(_)) = next else {
            return Turn { next, place: self };
        };
        let at = self.at + 1;
        Turn {
            next,
            place: Position { at },
        }
    }
}
