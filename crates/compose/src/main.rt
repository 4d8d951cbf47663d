// Makes a script file of a text that it reads from standard input, a step a line. The file and the complaint are the crate
// text_to_script's. A text is at most 1,048,576 bytes; one byte more is read, so that a longer text is seen to be longer
// and is refused, not cut. What is wrong with a text goes to standard error, in one line with the number of the line that
// it concerns, and nothing is written. Lines are counted from 1 there, as an editor counts them.
#![tactic(auto)]

use std::io::{Read, Write};
use streams::{print, read_or_say};
use text_to_script::{complain, compose};

// The file in one write, or what is wrong with the text, in one write.
fn answer<W: Write, E: Write>(out: &mut W, err: &mut E, text: &[u8]) {
    // Room for twelve blocks.
    let mut file = [0u8; 6144];
    let made = compose(text, &mut file);
    let Ok(count) = made else {
        let n = complain(made, &mut file, 0);
        let _ = err.write_all(&file[..n]);
        return;
    };
    print(out, err, b"compose", &file[..512 * count]);
}

// A text that could be read to its end, of at most 1,048,576 bytes: a part of one is not composed.
fn run<R: Read, W: Write, E: Write>(
    input: &mut R,
    out: &mut W,
    err: &mut E,
    text: &mut [u8; 1048577],
) {
    let Some(text) = read_or_say(input, err, b"compose", text) else {
        return;
    };
    if 1_048_576 < text.len() {
        let _ = err.write_all(b"compose: text of over 1048576 bytes\n");
        return;
    }
    answer(out, err, text);
}

fn main(rt: HostRuntime) {
    let mut text = [0u8; 1048577];
    run(
        &mut rt.stdin(),
        &mut rt.stdout(),
        &mut rt.stderr(),
        &mut text,
    );
}
