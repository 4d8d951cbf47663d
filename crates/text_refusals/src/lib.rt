// What a program says of a file that it refuses, and the words of each number. The definitions are specs/Words and
// specs/Complaint. Printing the line is a program's.
#![tactic(auto)]

ghost use Rattle.std.specs.Prelude.{◌+◌, ◌≤◌, length};
ghost use Rattle.lists.specs.Put.{Added};
ghost use Rattle.text.specs.Adding.{AddedIn};
ghost use Rattle.text_refusals.specs.Words.{words_of};
ghost use Rattle.text_refusals.specs.Complaint.{reason, place_of, complaint};

use script::Refusal;
use text::{add, add_decimal, add_place, has_room};

// The words of a number.
fn put_words(out: &mut [u8], at: usize, n: u8) -> usize
    requires { at + 60 ≤ length out.old }
    ensures { Added out.old at (words_of n) out.new result }
{
    let words: &[u8] = match n {
        1 => b"no such port in that direction",
        2 => b"the ports are closed",
        3 => b"a length of memory that is not allowed",
        4 => b"a byte outside memory",
        5 => b"a transfer number out of its range",
        6 => b"a block breaks a layout or check rule",
        7 => b"a step is none of the allowed",
        8 => b"not 1 to 12 whole blocks, or not 1 to 1008 steps",
        9 => b"too little room for the output",
        10 => b"a command of no known form",
        11 => b"a step can do nothing",
        _ => b"done",
    };
    add(out, at, words)
}

// A number and its words, with a line feed.
fn put_reason(out: &mut [u8], at: usize, n: u8) -> usize
    requires { at + 91 ≤ length out.old }
    ensures { Added out.old at (reason n) out.new result }
{
    let number = add(out, at, b"refused ");
    let comma = add_decimal(out, number, n as usize);
    let words = add(out, comma, b", ");
    let end = put_words(out, words, n);
    add(out, end, b"\n")
}

// A number and its words behind what stands in an output, if there is room for 91 bytes; where the next byte goes.
pub fn add_reason(out: &mut [u8], at: usize, n: u8) -> usize
    ensures { AddedIn 91 out.old at (reason n) out.new result }
{
    if has_room(out.len(), at, 91, 0) {
        return put_reason(out, at, n);
    }
    at
}

// Where a file is not right.
fn put_place(out: &mut [u8], at: usize, r: Refusal) -> usize
    requires { at + 28 ≤ length out.old }
    ensures { Added out.old at (place_of r) out.new result }
{
    match r {
        Refusal::Block(k) => add_place(out, at, b"block ", k),
        Refusal::Step(j, _) => add_place(out, at, b"step ", j),
        Refusal::Length | Refusal::Room => at,
    }
}

// What a program of this name says.
fn put_complaint(out: &mut [u8], at: usize, name: &[u8], r: Refusal) -> usize
    requires { at + (length name.now + 128) ≤ length out.old }
    ensures { Added out.old at (complaint name.now r) out.new result }
{
    let colon = add(out, at, name);
    let place = add(out, colon, b": ");
    let what = put_place(out, place, r);
    put_reason(out, what, r.number())
}

// What a program of this name says of a file that it refuses, in one line behind what stands in an output, if there is room
// for the name and 128 bytes; where the next byte goes.
pub fn complain(out: &mut [u8], at: usize, name: &[u8], r: Refusal) -> usize
    ensures { AddedIn (length name.now + 128) out.old at (complaint name.now r) out.new result }
{
    if has_room(out.len(), at, name.len(), 128) {
        return put_complaint(out, at, name, r);
    }
    at
}
