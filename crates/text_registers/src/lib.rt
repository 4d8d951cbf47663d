// All registers by name as text, for a program that shows the chip's state: a paragraph for each group, sixteen registers to
// a line. The definition is specs/Text, with the lines in specs/Line, the names in the crate text_steps and the digits in the
// crate text. Printing the text is a program's.
#![tactic(auto)]

ghost use Rattle.std.specs.Prelude.{◌≡◌, ◌+◌, ◌*◌, ◌≤◌, length};
ghost use Rattle.chip_registers.specs.Groups.{row_of};
ghost use Rattle.chip.specs.State.{named};
ghost use Rattle.chip.specs.View.{view};
ghost use Rattle.lists.specs.Put.{Added};
ghost use Rattle.text.specs.Adding.{AddedIn};
ghost use Rattle.text_registers.specs.Line.{cell, cells_to, across};
ghost use Rattle.text_registers.specs.Text.{is_listed, any_listed, line_at, lines_to, paragraph, dumped};

use chip::Chip;
use chip_registers::{Group, group_at, row_of};
use text::{add, add_byte, has_room};
use text_steps::add_name;

// A space, and the byte of a register, or `--` at an index that is not listed.
fn add_cell(chip: Chip, g: Group, i: u8, out: &mut [u8], at: usize) -> usize
    requires { at + 3 ≤ length out.old }
    ensures { Added out.old at (cell g (named (view chip)) i) out.new result }
{
    match row_of(g, i) {
        Some(_) => add_byte(out, at, chip.get(g, i)),
        None => add(out, at, b" --"),
    }
}

// Those of the n indexes from i on.
fn add_cells(chip: Chip, g: Group, i: u8, n: u8, out: &mut [u8], from: usize) -> usize
    requires { (i + n ≤ 256) × (from + n * 3 ≤ length out.old) }
    ensures { Added out.old from (cells_to g (named (view chip)) i n) out.new result }
{
    let mut at = from;
    for k in 0..n {
        at = add_cell(chip, g, i + k, out, at);
    }
    at
}

// Whether an index is listed.
fn is_listed(g: Group, i: u8) -> bool
    ensures { result ≡ is_listed (row_of g i) }
{
    row_of(g, i).is_some()
}

// Whether one of the n indexes from i on is listed.
fn any_listed(g: Group, i: u8, n: u8) -> bool
    requires { i + n ≤ 256 }
    ensures { result ≡ any_listed g i n }
{
    (0..n).any(|k| is_listed(g, i + k))
}

// How many registers a line of the group with this number has, and how many lines it has at most. Groups go by number here as in
// specs/Line and at add_name; 6 is MSR and 7 PALMASK.
fn count_across(g: u8) -> u8
    ensures { (result ≡ across g) × (result ≤ 16) }
{
    if (g == 6) | (g == 7) { 1 } else { 16 }
}

// The line of the indexes from i on, if one of them is listed.
fn add_line(chip: Chip, g: u8, i: u8, out: &mut [u8], at: usize) -> usize
    requires { (i + 16 ≤ 256) × (at + 56 ≤ length out.old) }
    ensures { Added out.old at (line_at g (named (view chip)) i) out.new result }
{
    let group = group_at(g);
    let n = count_across(g);
    if !any_listed(group, i, n) {
        return at;
    }
    let name = add_name(out, at, g, i);
    let end = add_cells(chip, group, i, n, out, name);
    add(out, end, b"\n")
}

// The lines of a group.
fn add_lines(chip: Chip, g: u8, out: &mut [u8], from: usize) -> usize
    requires { from + 896 ≤ length out.old }
    ensures { Added out.old from (lines_to g (named (view chip)) (across g)) out.new result }
{
    let n = count_across(g);
    let mut at = from;
    for k in 0..n {
        at = add_line(chip, g, 16 * k, out, at);
    }
    at
}

// The lines of a group, and an empty line.
fn add_paragraph(chip: Chip, g: u8, out: &mut [u8], at: usize) -> usize
    requires { at + 897 ≤ length out.old }
    ensures { Added out.old at (paragraph g (named (view chip))) out.new result }
{
    let end = add_lines(chip, g, out, at);
    add(out, end, b"\n")
}

// The paragraphs of all groups.
fn add_paragraphs(chip: Chip, out: &mut [u8], from: usize) -> usize
    requires { from + 8192 ≤ length out.old }
    ensures { Added out.old from (dumped (named (view chip))) out.new result }
{
    let mut at = from;
    for g in 0..9 {
        at = add_paragraph(chip, g, out, at);
    }
    at
}

// All registers by name, at a place of an output that has 8,192 bytes from there on; where the next byte goes. With
// less room nothing changes.
pub fn dump(chip: Chip, out: &mut [u8], at: usize) -> usize
    ensures { AddedIn 8192 out.old at (dumped (named (view chip))) out.new result }
{
    if has_room(out.len(), at, 8192, 0) {
        return add_paragraphs(chip, out, at);
    }
    at
}
