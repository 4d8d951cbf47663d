// What differs between two states of the chip by name, as text: a line for each register and for each palette entry that
// differs. The definition is specs/Changes; a register's name is the crate text_steps's, and digits the crate text's.
// Printing the text is a program's.
#![tactic(auto)]

ghost use Rattle.std.specs.Prelude.{◌≡◌, ◌+◌, ◌≤◌, ◌<◌, length};
ghost use Rattle.chip.specs.State.{named};
ghost use Rattle.chip.specs.View.{view};
ghost use Rattle.lists.specs.Put.{Added};
ghost use Rattle.text.specs.Adding.{AddedIn};
ghost use Rattle.text_steps.specs.Written.{byte_text};
ghost use Rattle.text_changes.specs.Changes.{register_line, register_change, indexes, registers_to, groups_to, colour_digits, colour_line, colour_change, colours_to, changed};

use chip::palette::is_same;
use chip::{Chip, Rgb};
use chip_registers::group_at;
use text::{add, add_byte, digit, has_room};
use text_steps::add_name;

// The line of a register.
fn put_line(out: &mut [u8], at: usize, g: u8, i: u8, old: u8, new: u8) -> usize
    requires { at + 14 ≤ length out.old }
    ensures { Added out.old at (register_line g i old new) out.new result }
{
    let name = add_name(out, at, g, i);
    let middle = add_byte(out, name, old);
    let end = add_byte(out, middle, new);
    add(out, end, b"\n")
}

// The line of a register, if its bytes differ.
fn put_register(out: &mut [u8], at: usize, g: u8, i: u8, old: u8, new: u8) -> usize
    requires { at + 14 ≤ length out.old }
    ensures { Added out.old at (register_change g i old new) out.new result }
{
    if old == new {
        return at;
    }
    put_line(out, at, g, i, old, new)
}

// How many registers a group's number has an index for. Groups go by number here as in specs/Changes and at add_name; 6 is MSR
// and 7 PALMASK.
fn index_count(g: u8) -> u16
    ensures { (result ≡ indexes g) × (result ≤ 256) }
{
    if (g == 6) | (g == 7) { 1 } else { 256 }
}

// Those of a group.
fn put_registers(before: Chip, after: Chip, g: u8, out: &mut [u8], from: usize) -> usize
    requires { from + 3584 ≤ length out.old }
    ensures { Added out.old from (registers_to (named (view before)) (named (view after)) g (indexes g)) out.new result }
{
    let group = group_at(g);
    let n = index_count(g);
    let mut at = from;
    for k in 0..n {
        let i = k as u8;
        let old = before.byte(group, i);
        let new = after.byte(group, i);
        at = put_register(out, at, g, i, old, new);
    }
    at
}

// Those of all groups.
fn put_groups(before: Chip, after: Chip, out: &mut [u8], from: usize) -> usize
    requires { from + 32256 ≤ length out.old }
    ensures { Added out.old from (groups_to (named (view before)) (named (view after)) 9) out.new result }
{
    let mut at = from;
    for g in 0..9 {
        at = put_registers(before, after, g, out, at);
    }
    at
}

// A space and the digits of a colour's three bytes.
fn put_bytes(out: &mut [u8], at: usize, c: Rgb) -> usize
    requires { at + 7 ≤ length out.old }
    ensures { Added out.old at (colour_digits c) out.new result }
{
    let [r, g, b] = [c.red, c.green, c.blue].map(u16::from);
    add(
        out,
        at,
        &[
            b' ',
            digit(r / 16),
            digit(r),
            digit(g / 16),
            digit(g),
            digit(b / 16),
            digit(b),
        ],
    )
}

// The line of a palette entry.
fn put_entry(out: &mut [u8], at: usize, e: u8, old: Rgb, new: Rgb) -> usize
    requires { at + 24 ≤ length out.old }
    ensures { Added out.old at (colour_line e old new) out.new result }
{
    let word = add(out, at, b"COLOUR");
    let number = add_byte(out, word, e);
    let middle = put_bytes(out, number, old);
    let end = put_bytes(out, middle, new);
    add(out, end, b"\n")
}

// The line of a palette entry, if it differs.
fn put_colour(out: &mut [u8], at: usize, e: u8, old: Rgb, new: Rgb) -> usize
    requires { at + 24 ≤ length out.old }
    ensures { Added out.old at (colour_change e old new) out.new result }
{
    if is_same(old, new) {
        return at;
    }
    put_entry(out, at, e, old, new)
}

// Those of all entries.
fn put_colours(before: Chip, after: Chip, out: &mut [u8], from: usize) -> usize
    requires { from + 6144 ≤ length out.old }
    ensures { Added out.old from (colours_to (named (view before)) (named (view after)) 256) out.new result }
{
    let mut at = from;
    for k in 0u16..256 {
        let e = k as u8;
        let old = before.stored(e);
        let new = after.stored(e);
        at = put_colour(out, at, e, old, new);
    }
    at
}

// What differs, behind what stands in an output with room for the longest text.
fn put_changes(before: Chip, after: Chip, out: &mut [u8], at: usize) -> usize
    requires { at + 38400 ≤ length out.old }
    ensures { Added out.old at (changed (named (view before)) (named (view after))) out.new result }
{
    let end = put_groups(before, after, out, at);
    put_colours(before, after, out, end)
}

// What differs between two states, at a place of an output that has 38,400 bytes from there on; where the next byte goes.
// With less room nothing changes.
pub fn tell_changes(before: Chip, after: Chip, out: &mut [u8], at: usize) -> usize
    ensures { AddedIn 38400 out.old at (changed (named (view before)) (named (view after))) out.new result }
{
    if has_room(out.len(), at, 38400, 0) {
        return put_changes(before, after, out, at);
    }
    at
}
