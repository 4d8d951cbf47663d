// Lines of input, each answered by a text: one line at a time, or as their bytes come. The store, the line so far and the text of
// the replies stand in bytes that the caller lends. The definitions are specs/Lines; what a request does is lib.rt.
ghost use Rattle.std.specs.Prelude.{◌≡◌, ◌+◌, cond, ltb, length, take, set};
ghost use Rattle.workbench_input.specs.Lines.{request_in, line_acted, store_left, answered_in, out_left, view_answered, place_at, fed_from};
ghost use Rattle.workbench_input.specs.View.{view_bench};

use crate::{Bench, act, shorter_of};
use lists::byte_at;
use text::has_room;
use text_tokens::tokens_of;
use workbench_replies::print;
use workbench_requests::{Request, request_of};

// The bench after a line, and where the next reply goes.
#[derive(Clone, Copy)]
pub struct Answered {
    pub bench: Bench,
    pub next: usize,
}

// How far the input has come: the bench, how many bytes the line so far has, and where the next byte of the text goes.
#[derive(Clone, Copy)]
pub struct Input {
    pub bench: Bench,
    pub size: usize,
    pub next: usize,
}

// The input after some of its bytes, and the place of the next one.
#[derive(Clone, Copy)]
pub struct Fed {
    pub input: Input,
    pub from: usize,
}

// What a line asks for.
fn request_in(ended: bool, line: &[u8]) -> Request
    ensures { result ≡ request_in ended line.now }
{
    if ended || byte_at(line, 0) == b'#' {
        return Request::Pass;
    }
    if 255 < line.len() {
        return Request::Unknown;
    }
    request_of(tokens_of(line))
}

// A line answered: its reply goes behind those that stand in the output.
pub fn answer(b: Bench, store: &mut [u8], line: &[u8], out: &mut [u8], at: usize) -> Answered
    ensures result_value { view_answered result ≡ answered_in out.old at (line_acted (view_bench b) store.old line.now) }
    ensures store_after { store.new ≡ store_left (view_bench b) store.old line.now }
    ensures out_after { out.new ≡ out_left out.old at (line_acted (view_bench b) store.old line.now) }
{
    let a = act(b, store, request_in(b.ended, line));
    Answered {
        bench: a.bench,
        next: print(a.bench.chip, a.reply, out, at),
    }
}

// A byte goes behind the line so far, where there is room for it; how many bytes it then has.
fn keep(line: &mut [u8], size: usize, c: u8) -> usize
    ensures value { result ≡ cond (ltb size (length line.old)) (size + 1) size }
    ensures line_after { line.new ≡ cond (ltb size (length line.old)) (set line.old size c) line.old }
{
    if size < line.len() {
        line[size] = c;
        return size + 1;
    }
    size
}

// The line so far answered.
fn end_line(
    b: Bench,
    store: &mut [u8],
    line: &[u8],
    size: usize,
    out: &mut [u8],
    at: usize,
) -> Answered
    ensures result_value { view_answered result ≡ answered_in out.old at (line_acted (view_bench b) store.old (take size line.now)) }
    ensures store_after { store.new ≡ store_left (view_bench b) store.old (take size line.now) }
    ensures out_after { out.new ≡ out_left out.old at (line_acted (view_bench b) store.old (take size line.now)) }
{
    answer(b, store, &line[..shorter_of(size, line.len())], out, at)
}

// Bytes of input from a place on, to their end or while there is room for a reply.
pub fn feed(
    begun: Input,
    store: &mut [u8],
    line: &mut [u8],
    out: &mut [u8],
    bytes: &[u8],
    from: usize,
) -> Fed
    ensures { place_at result store.new line.new out.new ≡ fed_from begun store.old line.old out.old from bytes.now }
{
    let mut bench = begun.bench;
    let mut size = begun.size;
    let mut next = begun.next;
    for i in from..bytes.len() {
        // whether any reply finds its room
        if !has_room(out.len(), next, 8192, 0) {
            return Fed {
                input: Input { bench, size, next },
                from: i,
            };
        }
        let c = bytes[i];
        if c != b'\n' {
            size = keep(line, size, c);
            continue;
        }
        let a = end_line(bench, store, line, size, out, next);
        bench = a.bench;
        next = a.next;
        size = 0;
    }
    Fed {
        input: Input { bench, size, next },
        from: from.max(bytes.len()),
    }
}
