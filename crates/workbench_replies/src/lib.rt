// The text of an answer of the workbench, put into a lent output: a number, a byte, two bytes, a colour, all registers, or
// that the line was not known. The definition is specs/Reply; all registers are the crate text_registers's, and digits the
// crate text's.
#![tactic(auto)]

ghost use Rattle.std.specs.Prelude.{◌+◌, ◌≤◌, length};
ghost use Rattle.chip.specs.State.{named};
ghost use Rattle.chip.specs.View.{view};
ghost use Rattle.lists.specs.Put.{Added};
ghost use Rattle.text.specs.Adding.{AddedIn};
ghost use Rattle.workbench_replies.specs.Reply.{reply_text};

use chip::Chip;
use text::{add, add_byte, add_decimal, has_room};
use text_registers::dump;

// An answer.
#[derive(Clone, Copy)]
pub enum Reply {
    // A number: 0 where it was done, else why not.
    Number(u8),
    // A number and a byte.
    Byte(u8, u8),
    // A number, and a register's byte before and after a write.
    Told(u8, u8, u8),
    // Red, green and blue.
    Colour(u8, u8, u8),
    // All registers.
    Registers,
    // The requests, with a form each.
    Requests,
    // Nothing is said.
    Nothing,
    // The line was not known.
    Unknown,
}

// The text of an answer.
fn add_reply(chip: Chip, reply: Reply, out: &mut [u8], at: usize) -> usize
    requires { at + 8192 ≤ length out.old }
    ensures { Added out.old at (reply_text (named (view chip)) reply) out.new result }
{
    match reply {
        Reply::Number(k) => {
            let end = add_decimal(out, at, k as usize);
            add(out, end, b"\n")
        }
        Reply::Byte(k, value) => {
            let number = add_decimal(out, at, k as usize);
            let end = add_byte(out, number, value);
            add(out, end, b"\n")
        }
        Reply::Told(k, before, after) => {
            let number = add_decimal(out, at, k as usize);
            let first = add_byte(out, number, before);
            let end = add_byte(out, first, after);
            add(out, end, b"\n")
        }
        Reply::Colour(red, green, blue) => {
            let number = add(out, at, b"0");
            let r = add_byte(out, number, red);
            let g = add_byte(out, r, green);
            let end = add_byte(out, g, blue);
            add(out, end, b"\n")
        }
        Reply::Registers => dump(chip, out, at),
        Reply::Requests => add(
            out,
            at,
            b"reset FF FF    a reset with the two pin bytes\no 3D6 60       a byte to a port\ni 3D7          a byte from a port\np 07           the colour that a pixel with this byte shows\nm 200000       so many bytes of memory, all 0\nr 1FFF         a byte of memory\nw 1FFF 5A      a byte into memory\nt 1F 10 0 10 4 2 CC 0 0 40 7\n               a block transfer: destination, span, source, span, width, height, raster code,\n               right to left, bottom to top, pattern, row\nd              all registers by name\n? or help      this list\nq              the end\n",
        ),
        Reply::Nothing => at,
        Reply::Unknown => add(out, at, b"?\n"),
    }
}

// The text of an answer, at a place of an output that has 8,192 bytes from there on; where the next byte goes. With less
// room nothing changes.
pub fn print(chip: Chip, reply: Reply, out: &mut [u8], at: usize) -> usize
    ensures { AddedIn 8192 out.old at (reply_text (named (view chip)) reply) out.new result }
{
    if has_room(out.len(), at, 8192, 0) {
        return add_reply(chip, reply, out, at);
    }
    at
}
