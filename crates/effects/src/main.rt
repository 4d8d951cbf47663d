// Runs the commands of a script file that it reads from standard input on a chip after a reset with pin bytes FFh and FFh, and
// prints a line for each: the command in the listing's words, and behind it the register or the colour that it changed,
// before and after. The text is the crate text_effects'. A file is at most twelve blocks, 6,144 bytes; one byte more is read,
// so that a longer file is seen to be longer and is refused, not cut. What is wrong with a file goes to standard error, in
// one line, and nothing is printed.
#![tactic(auto)]

use std::io::{Read, Write};
use streams::{answer, read_or_say};
use text_effects::tell;

// The text, or the complaint. What the programs share is in `streams`; what is left is each one's own buffers and calls.
fn run<R: Read, W: Write, E: Write>(input: &mut R, out: &mut W, err: &mut E) {
    let mut file = [0u8; 6145];
    // Room for the commands of 1,008 steps, 32 bytes a step.
    let mut work = [0u8; 32256];
    // Room for the text of 8,064 commands, 38,400 bytes and 38 a command.
    let mut text = [0u8; 344832];
    if let Some(file) = read_or_say(input, err, b"effects", &mut file) {
        let made = tell(file, &mut work, &mut text);
        answer(out, err, b"effects", &text, made);
    }
}

fn main(rt: HostRuntime) {
    run(&mut rt.stdin(), &mut rt.stdout(), &mut rt.stderr());
}
