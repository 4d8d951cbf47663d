// Prints the steps of a script file that it reads from standard input, a line each, as the program compose reads them. The
// text is the crate text_from_script's. A file is at most twelve blocks, 6,144 bytes; one byte more is read, so that a
// longer file is seen to be longer and is refused, not cut. What is wrong with a file goes to standard error, in one line,
// and nothing is printed.
#![tactic(auto)]

use std::io::{Read, Write};
use streams::{answer, read_or_say};
use text_from_script::show;

// The text, or the complaint.
fn run<R: Read, W: Write, E: Write>(input: &mut R, out: &mut W, err: &mut E) {
    let mut file = [0u8; 6145];
    // Room for the lines of 1,008 steps, 20 bytes a line.
    let mut text = [0u8; 20160];
    if let Some(file) = read_or_say(input, err, b"show", &mut file) {
        let made = show(file, &mut text);
        answer(out, err, b"show", &text, made);
    }
}

fn main(rt: HostRuntime) {
    run(&mut rt.stdin(), &mut rt.stdout(), &mut rt.stderr());
}
