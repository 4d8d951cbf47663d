// Requests carried out. The bench holds the chip, says how many bytes of a store that the caller lends are video memory, and
// whether the end was asked for. A request gives a reply and the bench after it, and changes the store only as its definition
// says. The definitions are specs/Acts; lines of input, each with its request, are lines.rt.
#![tactic(auto)]

ghost use Rattle.std.specs.Prelude.{◌≡◌, ◌≤◌, length};
ghost use Rattle.chip.specs.State.{named};
ghost use Rattle.chip.specs.Access.{port_written, port_read};
ghost use Rattle.chip.specs.Palette.{shown};
ghost use Rattle.chip.specs.View.{view};
ghost use Rattle.memory.specs.Memory.{answer_number, read_number, read_value, byte_number, byte_value, write_answer, byte_written};
ghost use Rattle.blit_frame.specs.Frame.{judged, judged_number};
ghost use Rattle.blit.specs.Transfer.{transferred};
ghost use Rattle.workbench_input.specs.Acts.{memory, with_memory, shorter, cleared, lent_from, acted, store_after};
ghost use Rattle.workbench_input.specs.Acts.{with_end, replied, after_reset, after_out, after_in, after_pixel, after_lend, after_read};
ghost use Rattle.workbench_input.specs.View.{view_bench, view_acted, with_kept};

use blit_frame::Transfer;
use chip::Chip;
use memory::{Refusal, answer_number};
use workbench_replies::Reply;
use workbench_requests::Request;

pub mod lines;

// The chip, how many bytes of the store are its video memory, and whether the end was asked for.
#[derive(Clone, Copy)]
pub struct Bench {
    pub chip: Chip,
    pub lent: usize,
    pub ended: bool,
}

// The bench after a request, and the reply.
#[derive(Clone, Copy)]
pub struct Acted {
    pub bench: Bench,
    pub reply: Reply,
}

// How many of the first `lent` bytes there are in bytes of this size: all of them where it has fewer.
pub fn shorter_of(lent: usize, size: usize) -> usize
    ensures { (result ≡ shorter lent size) × (result ≤ size) }
{
    lent.min(size)
}

// The first n bytes of a store become 0.
#[tactic(auto, unfolding(crate::specs::Acts::cleared))]
fn clear(store: &mut [u8], n: usize)
    requires { n ≤ length store.old }
    ensures { store.new ≡ cleared store.old n }
{
    store[..n].fill(0);
}

// The bench with another chip.
fn with_chip(b: Bench, chip: Chip) -> Bench
    ensures { result ≡ with_kept b chip }
{
    Bench { chip, ..b }
}

// A reset with two pin bytes.
fn restart(b: Bench, first: u8, second: u8) -> Acted
    ensures { view_acted result ≡ after_reset (view_bench b) first second }
{
    Acted {
        bench: with_chip(b, b.chip.reset(first, second)),
        reply: Reply::Number(0),
    }
}

// A port write: its number, and the register's byte before it and after it.
fn output(b: Bench, port: u16, v: u8) -> Acted
    ensures { view_acted result ≡ after_out (view_bench b) (port_written (view b.chip) port v) }
{
    let w = b.chip.write(port, v);
    Acted {
        bench: with_chip(b, w.chip),
        reply: Reply::Told(chip::access::number(w.answer), w.before, w.after),
    }
}

// A port read.
fn input(b: Bench, port: u16) -> Acted
    ensures { view_acted result ≡ after_in (view_bench b) (port_read (view b.chip) port) }
{
    let s = b.chip.read(port);
    Acted {
        bench: with_chip(b, s.chip),
        reply: Reply::Byte(chip::access::number(s.answer), s.value),
    }
}

// The colour that a pixel shows.
fn colour(b: Bench, pixel: u8) -> Acted
    ensures { view_acted result ≡ after_pixel (view_bench b) (shown (named (view b.chip)) pixel) }
{
    let e = b.chip.shown(pixel);
    Acted {
        bench: b,
        reply: Reply::Colour(e.red, e.green, e.blue),
    }
}

// The first n bytes of the store become the memory, all of them 0.
fn lend(b: Bench, store: &mut [u8], n: usize) -> Acted
    ensures result_value { view_acted result ≡ after_lend (view_bench b) (length store.old) n }
    ensures store_after { store.new ≡ lent_from store.old n }
{
    if !memory::length_allowed(n) || store.len() < n {
        return Acted {
            bench: b,
            reply: Reply::Number(3),
        };
    }
    clear(store, n);
    Acted {
        bench: Bench { lent: n, ..b },
        reply: Reply::Number(0),
    }
}

// What a read answers, as a reply.
fn seen(b: Bench, r: Result<u8, Refusal>) -> Acted
    ensures { view_acted result ≡ after_read (view_bench b) (read_number r) (read_value r) }
{
    match r {
        Ok(v) => Acted {
            bench: b,
            reply: Reply::Byte(0, v),
        },
        Err(why) => Acted {
            bench: b,
            reply: Reply::Byte(memory::refusal_number(why), 0xFF),
        },
    }
}

// A linear read.
fn load(b: Bench, store: &[u8], at: usize) -> Acted
    ensures { view_acted result ≡ after_read (view_bench b) (byte_number (length (memory b.lent store.now)) at) (byte_value (memory b.lent store.now) at) }
{
    let n = shorter_of(b.lent, store.len());
    seen(b, memory::read_byte(&store[..n], at))
}

// A linear write.
fn save(lent: usize, store: &mut [u8], at: usize, v: u8) -> Result<(), Refusal>
    ensures value { result ≡ write_answer (memory lent store.old) at }
    ensures result_number { answer_number result ≡ byte_number (length (memory lent store.old)) at }
    ensures store_after { store.new ≡ with_memory lent store.old (byte_written (memory lent store.old) at v) }
{
    let n = shorter_of(lent, store.len());
    memory::write_byte(&mut store[..n], at, v)
}

// A block transfer.
fn carry(lent: usize, store: &mut [u8], t: Transfer) -> Result<(), Refusal>
    ensures value { result ≡ judged (length (memory lent store.old)) t }
    ensures result_number { answer_number result ≡ judged_number (length (memory lent store.old)) t }
    ensures store_after { store.new ≡ with_memory lent store.old (transferred (memory lent store.old) t) }
{
    let n = shorter_of(lent, store.len());
    blit::block_transfer(&mut store[..n], t)
}

// The end: no line behind it is answered.
fn close(b: Bench) -> Acted
    ensures { view_acted result ≡ replied (with_end (view_bench b)) Reply.Nothing }
{
    Acted {
        bench: Bench { ended: true, ..b },
        reply: Reply::Nothing,
    }
}

// A request carried out.
pub fn act(b: Bench, store: &mut [u8], r: Request) -> Acted
    ensures result_value { view_acted result ≡ acted (view_bench b) store.old r }
    ensures store_after { store.new ≡ store_after (view_bench b) store.old r }
{
    match r {
        Request::Reset(first, second) => restart(b, first, second),
        Request::Out(port, v) => output(b, port, v),
        Request::In(port) => input(b, port),
        Request::Pixel(p) => colour(b, p),
        Request::Lend(n) => lend(b, store, n),
        Request::Read(at) => load(b, store, at),
        Request::Write(at, v) => Acted {
            bench: b,
            reply: Reply::Number(answer_number(save(b.lent, store, at, v))),
        },
        Request::Block(t) => Acted {
            bench: b,
            reply: Reply::Number(answer_number(carry(b.lent, store, t))),
        },
        Request::Dump => Acted {
            bench: b,
            reply: Reply::Registers,
        },
        Request::Help => Acted {
            bench: b,
            reply: Reply::Requests,
        },
        Request::Quit => close(b),
        Request::Pass => Acted {
            bench: b,
            reply: Reply::Nothing,
        },
        Request::Unknown => Acted {
            bench: b,
            reply: Reply::Unknown,
        },
    }
}
