// Prints the listing of a script file that it reads from standard input: document 01, "The listing program".
// The text is the crate text_listing's. A file is at most twelve blocks, 6,144 bytes; one byte more is read, so that a
// longer file is seen to be longer and is refused, not cut. Where a file is refused, standard error has the place, the
// number and its words, in one line.
#![tactic(auto)]

use std::io::{Read, Write};
use streams::{print, read_or_say, say_refused};
use text_listing::{ListError, list};

// The text; of a file that is refused its line, and then the complaint. The program short has these arms over another list: a
// shared place for them would make every program stand on the listing's crates, and is no plainer.
fn run<R: Read, W: Write, E: Write>(input: &mut R, out: &mut W, err: &mut E) {
    let mut file = [0u8; 6145];
    // Room for the commands of 1,008 steps, 32 bytes a step.
    let mut work = [0u8; 32256];
    // Room for the text of 8,064 commands, 87 bytes and 12 a command: for any text.
    let mut text = [0u8; 96855];
    let Some(file) = read_or_say(input, err, b"listing", &mut file) else {
        return;
    };
    match list(file, &mut work, &mut text) {
        Ok(n) => {
            print(out, err, b"listing", &text[..n]);
        }
        Err(ListError::Refused(why, n)) => {
            print(out, err, b"listing", &text[..n]);
            say_refused(err, b"listing", why);
        }
        Err(ListError::Short) => {}
    }
}

fn main(rt: HostRuntime) {
    run(&mut rt.stdin(), &mut rt.stdout(), &mut rt.stderr());
}
