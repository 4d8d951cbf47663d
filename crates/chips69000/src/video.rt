// Video memory: one byte, and a block transfer. Document 01, "Video memory and block transfers".
ghost use Rattle.std.specs.Prelude.{◌≡◌, ◌+◌, ◌*◌, length};
ghost use Rattle.memory.specs.Memory.{byte_number, byte_value, byte_written};
ghost use Rattle.blit_frame.specs.Frame.{judged_number};
ghost use Rattle.blit.specs.Transfer.{transferred};
ghost use Rattle.chips69000.specs.Given.{given};

use blit_frame::{Area, Transfer};
use memory::{answer_number, refusal_number};

// A byte of video memory: 256 times the number, plus the byte.
#[unsafe(no_mangle)]
pub extern "C" fn chips69000_memory_read(mem: &[u8], at: usize) -> u16
    ensures { result ≡ 256 * byte_number (length mem.now) at + byte_value mem.now at }
{
    match memory::read_byte(mem, at) {
        Ok(b) => b as u16,
        Err(why) => 256 * (refusal_number(why) as u16) + 255,
    }
}

// A byte written to video memory.
#[unsafe(no_mangle)]
pub extern "C" fn chips69000_memory_write(mem: &mut [u8], at: usize, value: u8) -> u8
    ensures value { result ≡ byte_number (length mem.old) at }
    ensures mem_after { mem.new ≡ byte_written mem.old at value }
{
    answer_number(memory::write_byte(mem, at, value))
}

// A block transfer.
#[unsafe(no_mangle)]
pub extern "C" fn chips69000_transfer(
    mem: &mut [u8],
    dst: usize,
    dstspan: usize,
    src: usize,
    srcspan: usize,
    width: usize,
    height: usize,
    code: u8,
    leftward: bool,
    upward: bool,
    pattern: usize,
    row: usize,
) -> u8
    ensures value { result ≡ judged_number (length mem.old) (given dst dstspan src srcspan width height code leftward upward pattern row) }
    ensures mem_after { mem.new ≡ transferred mem.old (given dst dstspan src srcspan width height code leftward upward pattern row) }
{
    let t = Transfer {
        destination: Area {
            address: dst,
            span: dstspan,
        },
        source: Area {
            address: src,
            span: srcspan,
        },
        width,
        height,
        code,
        leftward,
        upward,
        pattern_address: pattern,
        pattern_row: row,
    };
    answer_number(blit::block_transfer(mem, t))
}
