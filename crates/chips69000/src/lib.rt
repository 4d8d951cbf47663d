// The controller as a C program links it: include/chips69000.h declares these functions. The state is bytes
// that the program lends (crate `lent_chip`), memory, files and command bytes likewise, and each function returns
// document 01's number, or 255 for bytes that are no state. Nothing is worked out here: every
// function calls a proved one and says its answer in numbers. Here are the versions, the reset and the port accesses;
// then registers and colours by name, video memory, scripts and the run.
#![tactic(auto)]

ghost use Rattle.std.specs.Prelude.{◌≡◌, ◌/◌, ◌%◌};
ghost use Rattle.chip.specs.Access.{port_written, port_read};
ghost use Rattle.chip.specs.Reset.{reset as reset_of};
ghost use Rattle.lent_chip.specs.Layout.{view, spare};
ghost use Rattle.lent_chip.specs.Accesses.{Left, Packed};
ghost use Rattle.lent_chip.specs.Numbers.{write_table, read_table};
ghost use Rattle.lent_reset.specs.Fresh.{reset_answer};
ghost use Rattle.script.specs.Numbers.{of_refusal, of_checked};
ghost use Rattle.script_writer.specs.Write.{of_written};
ghost use Rattle.script_commands.specs.Translation.{of_translated};
ghost use Rattle.chips69000.specs.Numbers.{library_version, state_version, reset_number, in_c};

use lent_chip::access::{StateError, read_word, write_word};
use lent_reset::reset;
use script::Refusal;

pub mod begins;
pub mod names;
pub mod scripts;
pub mod video;

// A refusal: its number, and what it says at a place that the caller lends.
fn refused(why: Refusal, value: &mut usize) -> u8
    ensures number { result ≡ (of_refusal why).number }
    ensures value_after { value.new ≡ (of_refusal why).value }
{
    *value = why.value();
    why.number()
}

// A count, or why there is none: its number, and the value at a place that the caller lends. Checking, writing and translating
// answer so.
fn told(answer: Result<usize, Refusal>, value: &mut usize) -> u8
    ensures checked { (result ≡ (of_checked answer).number) × (value.new ≡ (of_checked answer).value) }
    ensures written { (result ≡ (of_written answer).number) × (value.new ≡ (of_written answer).value) }
    ensures translated { (result ≡ (of_translated answer).number) × (value.new ≡ (of_translated answer).value) }
{
    match answer {
        Ok(n) => {
            *value = n;
            0
        }
        Err(why) => refused(why, value),
    }
}

// The version of the library.
#[unsafe(no_mangle)]
pub extern "C" fn chips69000_version() -> u32
    ensures { result ≡ library_version }
{
    4
}

// The version of the bytes of a state: document 02, P7.
#[unsafe(no_mangle)]
pub extern "C" fn chips69000_state_version() -> u32
    ensures { result ≡ state_version }
{
    2
}

// A reset that lends two pin bytes.
#[unsafe(no_mangle)]
pub extern "C" fn chips69000_reset(state: &mut [u8], first: u8, second: u8) -> u8
    ensures value { result ≡ reset_number (reset_answer state.old) }
    ensures left { Left state.old (reset_of first second) 0 state.new }
{
    match reset(state, first, second) {
        Ok(()) => 0,
        Err(StateError::Length) => 255,
    }
}

// A port write: bits 0 to 7 are the register's byte after it, 8 to 15 its byte before, 24 to 31 the number. Document 02, P6.
#[unsafe(no_mangle)]
pub extern "C" fn chips69000_port_write(state: &mut [u8], port: u16, value: u8) -> u32
    ensures packed { Packed result (in_c (write_table state.old port value)) }
    ensures left { Left state.old (port_written (view state.old) port value).chip (spare state.old) state.new }
{
    (write_word(state, port, value) % 4294967296) as u32
}

// A port read: 256 times the number, plus the byte.
#[unsafe(no_mangle)]
pub extern "C" fn chips69000_port_read(state: &mut [u8], port: u16) -> u16
    ensures result_value { result / 256 ≡ (read_table state.old port).number }
    ensures result_value_2 { result % 256 ≡ (read_table state.old port).value }
    ensures left { Left state.old (port_read (view state.old) port).chip (spare state.old) state.new }
{
    read_word(state, port)
}
