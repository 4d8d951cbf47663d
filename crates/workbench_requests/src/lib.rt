// A line's words read as a request to the workbench: its name, the numbers of its form, and no word behind them. The
// definition is specs/Request. What a line's words are is the crate text_tokens'; what a request does is not here.
#![tactic(auto)]

ghost use Rattle.std.specs.Prelude.{◌≡◌, ◌&&◌, cond, eqb};
ghost use Rattle.workbench_requests.specs.Request.{fits, value, is_port, port as port_at, is_byte, byte as byte_at, is_number, number as number_at, is_transfer, transfer_of, request_of};

use blit_frame::{Area, Transfer};
use text_tokens::{Tokens, number_of};

// What a line asks for.
#[derive(Clone, Copy)]
pub enum Request {
    // `RESET A B`: a reset with two pin bytes.
    Reset(u8, u8),
    // `O PORT BYTE`: a byte to a port.
    Out(u16, u8),
    // `I PORT`: a byte from a port.
    In(u16),
    // `P PIXEL`: the colour of a pixel.
    Pixel(u8),
    // `M LENGTH`: so many bytes of memory.
    Lend(usize),
    // `R ADDRESS`: a byte of memory.
    Read(usize),
    // `W ADDRESS BYTE`: a byte into memory.
    Write(usize, u8),
    // `T` and eleven numbers: a transfer.
    Block(Transfer),
    // `D`: all registers.
    Dump,
    // `?` and `HELP`: the requests.
    Help,
    // `Q`: the end.
    Quit,
    // A line without words.
    Pass,
    // Any other line.
    Unknown,
}

// A word as a port, a byte, a direction, and a number of any value.
#[tactic(auto, unfolding(crate::specs::Request::fits, crate::specs::Request::value))]
fn port(word: u64) -> Option<u16>
    ensures { result ≡ cond (fits 0xFFFF word) (Some (value 0xFFFF word)) None }
{
    u16::try_from(number_of(word)?).ok()
}

#[tactic(auto, unfolding(crate::specs::Request::fits, crate::specs::Request::value))]
fn byte(word: u64) -> Option<u8>
    ensures { result ≡ cond (fits 0xFF word) (Some (value 0xFF word)) None }
{
    u8::try_from(number_of(word)?).ok()
}

#[tactic(auto, unfolding(crate::specs::Request::fits, crate::specs::Request::value))]
fn direction(word: u64) -> Option<bool>
    ensures { result ≡ cond (fits 1 word) (Some (eqb (value 1 word) 1)) None }
{
    match number_of(word)? {
        0 => Some(false),
        1 => Some(true),
        _ => None,
    }
}

#[tactic(auto, unfolding(crate::specs::Request::fits, crate::specs::Request::value))]
fn number(word: u64) -> Option<usize>
    ensures { result ≡ cond (fits 0xFFFFFFFF word) (Some (value 0xFFFFFFFF word)) None }
{
    Some(number_of(word)? as usize)
}

// The transfer that the words behind the name say.
#[tactic(auto, unfolding(crate::specs::Request::is_transfer, crate::specs::Request::transfer_of))]
fn transfer_of(w: Tokens) -> Option<Transfer>
    ensures { result ≡ cond (is_transfer w) (Some (transfer_of w)) None }
{
    let destination = Area {
        address: number(w.at[1])?,
        span: number(w.at[2])?,
    };
    let source = Area {
        address: number(w.at[3])?,
        span: number(w.at[4])?,
    };
    let width = number(w.at[5])?;
    let height = number(w.at[6])?;
    let code = byte(w.at[7])?;
    let leftward = direction(w.at[8])?;
    let upward = direction(w.at[9])?;
    let pattern_address = number(w.at[10])?;
    let pattern_row = number(w.at[11])?;
    Some(Transfer {
        destination,
        source,
        width,
        height,
        code,
        leftward,
        upward,
        pattern_address,
        pattern_row,
    })
}

// The requests with numbers, each with its own behind the name: a function each, since `?` leaves a request's own form.
fn reset(w: Tokens) -> Option<Request>
    ensures { result ≡ cond (is_byte w 1 && is_byte w 2) (Some (Request.Reset (byte_at w 1) (byte_at w 2))) None }
{
    let first = byte(w.at[1])?;
    let second = byte(w.at[2])?;
    Some(Request::Reset(first, second))
}

fn output(w: Tokens) -> Option<Request>
    ensures { result ≡ cond (is_port w 1 && is_byte w 2) (Some (Request.Out (port_at w 1) (byte_at w 2))) None }
{
    let to = port(w.at[1])?;
    let sent = byte(w.at[2])?;
    Some(Request::Out(to, sent))
}

fn input(w: Tokens) -> Option<Request>
    ensures { result ≡ cond (is_port w 1) (Some (Request.In (port_at w 1))) None }
{
    let from = port(w.at[1])?;
    Some(Request::In(from))
}

fn pixel(w: Tokens) -> Option<Request>
    ensures { result ≡ cond (is_byte w 1) (Some (Request.Pixel (byte_at w 1))) None }
{
    let value = byte(w.at[1])?;
    Some(Request::Pixel(value))
}

fn lend(w: Tokens) -> Option<Request>
    ensures { result ≡ cond (is_number w 1) (Some (Request.Lend (number_at w 1))) None }
{
    let size = number(w.at[1])?;
    Some(Request::Lend(size))
}

fn read(w: Tokens) -> Option<Request>
    ensures { result ≡ cond (is_number w 1) (Some (Request.Read (number_at w 1))) None }
{
    let at = number(w.at[1])?;
    Some(Request::Read(at))
}

fn write(w: Tokens) -> Option<Request>
    ensures { result ≡ cond (is_number w 1 && is_byte w 2) (Some (Request.Write (number_at w 1) (byte_at w 2))) None }
{
    let at = number(w.at[1])?;
    let value = byte(w.at[2])?;
    Some(Request::Write(at, value))
}

fn block(w: Tokens) -> Option<Request>
    ensures { result ≡ cond (is_transfer w) (Some (Request.Block (transfer_of w))) None }
{
    let t = transfer_of(w)?;
    Some(Request::Block(t))
}

// What a line's words ask for: a request, and no word behind it.
pub fn request_of(w: Tokens) -> Request
    ensures { result ≡ request_of w }
{
    let at = w.at;
    let asked = match at[0] {
        // `RESET`
        0x52_4553_4554 if at[3] == 0 => reset(w),
        // `O`
        0x4F if at[3] == 0 => output(w),
        // `I`
        0x49 if at[2] == 0 => input(w),
        // `P`
        0x50 if at[2] == 0 => pixel(w),
        // `M`
        0x4D if at[2] == 0 => lend(w),
        // `R`
        0x52 if at[2] == 0 => read(w),
        // `W`
        0x57 if at[3] == 0 => write(w),
        // `T`
        0x54 if at[12] == 0 => block(w),
        // `D`
        0x44 if at[1] == 0 => Some(Request::Dump),
        // `?`
        0x3F if at[1] == 0 => Some(Request::Help),
        // `HELP`
        0x4845_4C50 if at[1] == 0 => Some(Request::Help),
        // `Q`
        0x51 if at[1] == 0 => Some(Request::Quit),
        // no word
        0x00 => Some(Request::Pass),
        _ => None,
    };
    asked.unwrap_or(Request::Unknown)
}
