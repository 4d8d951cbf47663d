// A step as a line of text, for those who write scripts by hand: written, and read; and a register's name alone. The
// definitions are specs/Written and specs/Reading; that a written step reads back as itself is proofs/ReadBack.
#![tactic(auto)]

ghost use Rattle.std.specs.Prelude.{◌≡◌, ◌+◌, ◌≤◌, true, false, length, take, ltb, MatchOption, MatchResult};
ghost use Rattle.lists.specs.Put.{Added};
ghost use Rattle.text.specs.Adding.{AddedIn};
ghost use Rattle.text_tokens.specs.Hex.{is_byte, byte_of};
ghost use Rattle.text_steps.specs.declared.NotAStep.TheVariants.{Other};
ghost use Rattle.text_steps.specs.Written.{letter, name_text, byte_text, step_text, step_line};
ghost use Rattle.text_steps.specs.Reading.{group_of, indexed, name_of, set_of, field_of, colour_of, step_of, said, before_comment, line_of};

use script_steps::Step;
use text::{add, add_byte, digit};
use text_tokens::{Tokens, byte_of, is_byte, tokens_of};

// A register's name: its group and its index.
#[derive(Clone, Copy)]
pub struct Name {
    pub group: u8,
    pub index: u8,
}

// A line of words that are no step: an enum, as the other errors are.
#[derive(Clone, Copy)]
pub enum NotAStep {
    Other,
}

// The group of two letters.
#[tactic(auto, unfolding(crate::specs::Reading::group_of))]
fn group_of(letters: u64) -> Option<u8>
    ensures { MatchOption result (ltb (group_of letters) 9 ≡ false) (λ g. (g ≡ group_of letters) × (ltb g 9 ≡ true)) }
{
    match letters {
        0x4352 => Some(0),
        0x5352 => Some(1),
        0x4752 => Some(2),
        0x5852 => Some(3),
        0x4652 => Some(4),
        0x4D52 => Some(5),
        0x4152 => Some(8),
        _ => None,
    }
}

// A word of two digits as a byte.
fn byte(word: u64) -> Result<u8, NotAStep>
    ensures { MatchResult result (λ b. (is_byte word ≡ true) × (b ≡ byte_of word)) (λ e. (is_byte word ≡ false) × (e ≡ Other)) }
{
    if is_byte(word) {
        return Ok(byte_of(word));
    }
    Err(NotAStep::Other)
}

// Two letters and two digits.
#[tactic(auto, unfolding(crate::specs::Reading::indexed))]
fn indexed_name(letters: u64, digits: u64) -> Option<Name>
    ensures { result ≡ indexed letters digits }
{
    let group = group_of(letters)?;
    let index = byte(digits).ok()?;
    Some(Name { group, index })
}

// A word read as a register's name.
#[tactic(auto, unfolding(crate::specs::Reading::name_of))]
pub fn name_of(word: u64) -> Option<Name>
    ensures { result ≡ name_of word }
{
    if word == 0x4D5352 {
        return Some(Name { group: 6, index: 0 });
    }
    if word == 0x50414C4D41534B {
        return Some(Name { group: 7, index: 0 });
    }
    indexed_name(word / 65536, word % 65536)
}

// A name and a byte.
#[tactic(auto, unfolding(crate::specs::Reading::set_of))]
fn set_of(name: Option<Name>, value: u64) -> Result<Option<Step>, NotAStep>
    ensures { result ≡ set_of name value }
{
    let Name { group, index } = name.ok_or(NotAStep::Other)?;
    let value = byte(value)?;
    Ok(Some(Step::Set {
        group,
        index,
        value,
    }))
}

// A name, the mask and the value.
#[tactic(auto, unfolding(crate::specs::Reading::field_of))]
fn field_of(name: Option<Name>, mask: u64, value: u64) -> Result<Option<Step>, NotAStep>
    ensures { result ≡ field_of name mask value }
{
    let Name { group, index } = name.ok_or(NotAStep::Other)?;
    let mask = byte(mask)?;
    let value = byte(value)?;
    Ok(Some(Step::Field {
        group,
        index,
        value,
        mask,
    }))
}

// Four bytes.
#[tactic(auto, unfolding(crate::specs::Reading::colour_of))]
fn colour_of(entry: u64, red: u64, green: u64, blue: u64) -> Result<Option<Step>, NotAStep>
    ensures { result ≡ colour_of entry red green blue }
{
    let entry = byte(entry)?;
    let red = byte(red)?;
    let green = byte(green)?;
    let blue = byte(blue)?;
    Ok(Some(Step::Colour {
        entry,
        red,
        green,
        blue,
    }))
}

// A line's words read as a step.
#[tactic(auto, unfolding(crate::specs::Reading::step_of))]
pub fn step_of(w: Tokens) -> Result<Option<Step>, NotAStep>
    ensures { result ≡ step_of w }
{
    let a = w.at;
    if (a[0] == 0x534554) & (a[3] == 0) {
        return set_of(name_of(a[1]), a[2]);
    }
    if (a[0] == 0x4649454C44) & (a[4] == 0) {
        return field_of(name_of(a[1]), a[2], a[3]);
    }
    if (a[0] == 0x434F4C4F5552) & (a[5] == 0) {
        return colour_of(a[1], a[2], a[3], a[4]);
    }
    Err(NotAStep::Other)
}

// What words say, if there are any.
#[tactic(auto, unfolding(crate::specs::Reading::said))]
fn say(w: Tokens) -> Result<Option<Step>, NotAStep>
    ensures { result ≡ said w }
{
    let a = w.at;
    if a[0] == 0 {
        return Ok(None);
    }
    step_of(w)
}

// Where a line's comment begins, or the line's end.
fn comment_start(line: &[u8]) -> usize
    ensures { (result ≤ length line.now) × (take result line.now ≡ before_comment true line.now) }
{
    let mut free = true;
    for (i, c) in line.iter().enumerate() {
        if free & (*c == b'#') {
            return i;
        }
        free = *c < 0x21;
    }
    line.len()
}

// A line read.
#[tactic(auto, unfolding(crate::specs::Reading::line_of))]
pub fn read_line(line: &[u8]) -> Result<Option<Step>, NotAStep>
    ensures { result ≡ line_of line.now }
{
    let end = comment_start(line);
    say(tokens_of(&line[..end]))
}

// The first letter of an indexed group.
#[tactic(auto, unfolding(crate::specs::Written::letter))]
fn letter_of(group: u8) -> u8
    ensures { result ≡ letter group }
{
    match group {
        0 => b'C',
        1 => b'S',
        2 => b'G',
        3 => b'X',
        4 => b'F',
        5 => b'M',
        8 => b'A',
        _ => b'?',
    }
}

// A register's name behind what stands in an output.
#[tactic(auto, unfolding(crate::specs::Written::name_text))]
fn put_name(out: &mut [u8], at: usize, group: u8, index: u8) -> usize
    requires { at + 7 ≤ length out.old }
    ensures { Added out.old at (name_text group index) out.new result }
{
    if group == 6 {
        return add(out, at, b"MSR");
    }
    if group == 7 {
        return add(out, at, b"PALMASK");
    }
    let i = index as u16;
    let text = [letter_of(group), b'R', digit(i / 16), digit(i)];
    add(out, at, &text)
}

// The text of a step.
fn put_step(out: &mut [u8], at: usize, step: Step) -> usize
    requires { at + 20 ≤ length out.old }
    ensures { Added out.old at (step_text step) out.new result }
{
    match step {
        Step::Set {
            group,
            index,
            value,
        } => {
            let name = add(out, at, b"SET ");
            let byte = put_name(out, name, group, index);
            add_byte(out, byte, value)
        }
        Step::Field {
            group,
            index,
            value,
            mask,
        } => {
            let name = add(out, at, b"FIELD ");
            let bits = put_name(out, name, group, index);
            let byte = add_byte(out, bits, mask);
            add_byte(out, byte, value)
        }
        Step::Colour {
            entry,
            red,
            green,
            blue,
        } => {
            let e = add(out, at, b"COLOUR");
            let r = add_byte(out, e, entry);
            let g = add_byte(out, r, red);
            let b = add_byte(out, g, green);
            add_byte(out, b, blue)
        }
    }
}

// The line of a step, behind what stands in an output with room for the longest.
fn put_line(out: &mut [u8], at: usize, step: Step) -> usize
    requires { at + 20 ≤ length out.old }
    ensures { Added out.old at (step_line step) out.new result }
{
    let end = put_step(out, at, step);
    add(out, end, b"\n")
}

// A step's line behind what stands in an output that has room for the longest line, 20 bytes; where the next line goes.
pub fn add_step(out: &mut [u8], at: usize, step: Step) -> usize
    ensures { AddedIn 20 out.old at (step_line step) out.new result }
{
    if text::has_room(out.len(), at, 20, 0) {
        return put_line(out, at, step);
    }
    at
}

// A register's name behind what stands in an output that has room for the longest, 7 bytes; where the next byte goes.
pub fn add_name(out: &mut [u8], at: usize, group: u8, index: u8) -> usize
    ensures { AddedIn 7 out.old at (name_text group index) out.new result }
{
    if text::has_room(out.len(), at, 7, 0) {
        return put_name(out, at, group, index);
    }
    at
}
