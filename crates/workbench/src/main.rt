// Answers requests to a chip that it reads from standard input, one a line: the replies go to standard output, in the order
// of the lines. It begins after a reset with pin bytes FFh, and with 2,097,152 bytes of memory, all of them 0. What a line
// asks for is the crate workbench_requests', what it does the crate workbench_input's, and the text of a reply the crate
// workbench_replies'. Replies are printed where a piece of input ends, and where their text leaves no room for another. A last
// line needs no line feed. It ends where the input does, or where the end is asked for.
#![tactic(auto)]

ghost use Rattle.std.specs.Prelude.{◌<◌, length};

use chip::Chip;
use std::io::{Read, Write};
use std::ops::ControlFlow;
use streams::{print, say_unread};
use workbench_input::lines::{Input, feed};
use workbench_input::{Bench, shorter_of};

// How far the input has come, the bytes that the store, the line so far and the replies stand in, and where replies and what is
// wrong are written. The buffers are arrays, since there is no heap.
#[derive(Drop)]
struct Session<'a, W: Write, E: Write> {
    input: Input,
    store: &'a mut [u8],
    line: [u8; 256],
    out: [u8; 65536],
    writer: &'a mut W,
    err: &'a mut E,
}

impl<'a, W: Write, E: Write> Session<'a, W, E> {
    // Bytes of input from a place on, as many as there is room for replies; the replies are printed. The place of the next byte.
    fn part(&mut self, bytes: &[u8], from: usize) -> usize
        requires { from < length bytes.now }
        ensures { from < result }
    {
        let begun = Input {
            bench: self.input.bench,
            size: self.input.size,
            next: 0,
        };
        let f = feed(
            begun,
            self.store,
            &mut self.line,
            &mut self.out,
            bytes,
            from,
        );
        self.input = f.input;
        let n = shorter_of(f.input.next, self.out.len());
        print(self.writer, self.err, b"workbench", &self.out[..n]);
        f.from
    }

    // All bytes of a piece of input. It goes on by what a part took, which depends on the replies: no count by hand.
    fn piece(&mut self, bytes: &[u8]) {
        let mut from = 0;
        while from < bytes.len() {
            from = self.part(bytes, from);
        }
    }

    // One read; a break where there is no more of the input.
    fn turn<R: Read>(&mut self, reader: &mut R, buf: &mut [u8]) -> ControlFlow<()> {
        let Ok(n) = reader.read(buf) else {
            say_unread(self.err, b"workbench");
            return ControlFlow::Break(());
        };
        if n == 0 {
            return ControlFlow::Break(());
        }
        self.piece(&buf[..n]);
        if self.input.bench.ended {
            return ControlFlow::Break(());
        }
        ControlFlow::Continue(())
    }

    // All of the input; turns run out after 2^64 reads.
    fn pieces<R: Read>(&mut self, reader: &mut R, buf: &mut [u8]) {
        for _ in 0..u64::MAX {
            if self.turn(reader, buf).is_break() {
                return;
            }
        }
    }

    // A last line that has no line feed is answered as if it had one.
    fn end(&mut self) {
        if self.input.size != 0 {
            self.piece(b"\n");
        }
    }
}

// All of the input, and its last line, with all of the store lent.
fn work<R: Read, W: Write, E: Write>(
    reader: &mut R,
    writer: &mut W,
    err: &mut E,
    store: &mut [u8],
) {
    let mut buf = [0u8; 65536];
    let bench = Bench {
        chip: Chip::new(0xFF, 0xFF),
        lent: store.len(),
        ended: false,
    };
    let input = Input {
        bench,
        size: 0,
        next: 0,
    };
    let mut session = Session {
        input,
        store,
        line: [0; 256],
        out: [0; 65536],
        writer,
        err,
    };
    session.pieces(reader, &mut buf);
    session.end();
}

fn lend<R: Read, W: Write, E: Write>(
    reader: &mut R,
    writer: &mut W,
    err: &mut E,
    store: &mut [u8; 2097152],
) {
    work(reader, writer, err, store);
}

fn main(rt: HostRuntime) {
    let mut store = [0u8; 2097152];
    lend(
        &mut rt.stdin(),
        &mut rt.stdout(),
        &mut rt.stderr(),
        &mut store,
    );
}
