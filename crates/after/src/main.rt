// Plays a script file that it reads from standard input on a chip after a reset with pin bytes FFh and FFh, and prints what
// then differs from the reset: a line a register and a line a colour, and at the end the number of commands. The text is
// the crate text_played's. A file is at most twelve blocks, 6,144 bytes; one byte more is read, so that a longer file is
// seen to be longer and is refused, not cut. What is wrong with a file goes to standard error, in one line, and nothing is
// printed.
#![tactic(auto)]

use std::io::{Read, Write};
use streams::{answer, read_or_say};
use text_played::tell;

// The text, or the complaint. What the programs share is in `streams`; what is left is each one's own buffers and calls.
fn run<R: Read, W: Write, E: Write>(input: &mut R, out: &mut W, err: &mut E) {
    let mut file = [0u8; 6145];
    // Room for the commands of 1,008 steps, 32 bytes a step.
    let mut work = [0u8; 32256];
    // Room for the longest text.
    let mut text = [0u8; 38430];
    if let Some(file) = read_or_say(input, err, b"after", &mut file) {
        let made = tell(file, &mut work, &mut text);
        answer(out, err, b"after", &text, made);
    }
}

fn main(rt: HostRuntime) {
    run(&mut rt.stdin(), &mut rt.stdout(), &mut rt.stderr());
}
