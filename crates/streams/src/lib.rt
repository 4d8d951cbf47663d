// An input read whole and an output written whole, with a failure told: for programs that read a file and print an answer.
// What a program says then is one line on standard error, `NAME: cannot read standard input` or `NAME: cannot write standard
// output`, or what is wrong with the file. Any reader may be the input, and any writers the output and the place for what is
// said. What is lent to be written stays as it is.
#![tactic(auto)]

ghost use Rattle.std.specs.Prelude.{◌≡◌, ◌<◌, ◌≤◌, ◌++◌, true, length, take, IfSome, IsSome, IfOk, IfErr, IsOk, IsErr};
ghost use Rattle.std.specs.Io.KnownBytes.{Appends, Consumes, IsAtEnd};
ghost use Rattle.streams.specs.Said.{unread};
ghost use Rattle.text_refusals.specs.Complaint.{complaint};
ghost use Rattle.streams.specs.Got.{Within, Comes, EndsUnlessFull};

use script::Refusal;
use std::io;
use std::io::{Read, Write};
use text_refusals::complain;

// An input into a buffer, until it is full or the input ends; how many bytes came. A read may bring any number of bytes, so this
// is a `while`.
pub fn read_input<R: Read>(input: &mut R, buf: &mut [u8]) -> io::Result<usize>
    ensures room { Within result (length buf.old) }
    ensures came { Comes result (R.remaining input.old) (R.remaining input.new) buf.new }
    ensures end { EndsUnlessFull result (length buf.old) (R.remaining input.new) }
{
    let mut done = 0;
    while done < buf.len() {
        let k = input.read(&mut buf[done..])?;
        if k == 0 {
            return Ok(done);
        }
        done += k;
    }
    Ok(done)
}

// The name of a program and some words to standard error; whether all was written.
fn say<E: Write>(err: &mut E, name: &[u8], words: &[u8]) -> bool
    ensures { result ≡ true → Appends (E.contents err.old) (E.contents err.new) (name.now ++ words.now) }
{
    let has_named = err.write_all(name).is_ok();
    err.write_all(words).is_ok() && has_named
}

// What a program of this name says where its input cannot be read; whether it was said.
pub fn say_unread<E: Write>(err: &mut E, name: &[u8]) -> bool
    ensures name_value { name.now ≡ name.now }
    ensures said { result ≡ true → Appends (E.contents err.old) (E.contents err.new) (unread name.now) }
{
    say(err, name, b": cannot read standard input\n")
}

// An input read whole into a buffer, by a program of this name: the bytes that came. Where it cannot be read, that is said.
pub fn read_or_say<'a, R: Read, E: Write>(
    input: &mut R,
    err: &mut E,
    name: &[u8],
    buf: &'a mut [u8],
) -> Option<&'a [u8]>
    ensures room { IfSome result (λ bytes. length bytes.now ≤ length buf.old) }
    ensures came { IfSome result (λ bytes. Consumes (R.remaining input.old) (R.remaining input.new) bytes.now) }
    ensures end { IfSome result (λ bytes. length bytes.now < length buf.old → IsAtEnd (R.remaining input.new)) }
    ensures silent { IsSome result → err.new ≡ err.old }
{
    match read_input(input, buf) {
        Ok(n) => Some(&buf[..n]),
        Err(_) => {
            say_unread(err, name);
            None
        }
    }
}

// What a program of this name says of a file that it refuses; whether it was said. In one write, but for a name of more than 32
// bytes, which goes before the rest.
pub fn say_refused<E: Write>(err: &mut E, name: &[u8], why: Refusal) -> bool
    ensures name_value { name.now ≡ name.now }
    ensures said { result ≡ true → Appends (E.contents err.old) (E.contents err.new) (complaint name.now why) }
{
    let mut line = [0; 160];
    if 32 < name.len() {
        let n = complain(&mut line, 0, b"", why);
        return say(err, name, &line[..n]);
    }
    let n = complain(&mut line, 0, name, why);
    err.write_all(&line[..n]).is_ok()
}

// Bytes to the output, by a program of this name; whether they were written. Where they were not, that is said.
pub fn print<W: Write, E: Write>(out: &mut W, err: &mut E, name: &[u8], bytes: &[u8]) -> bool
    ensures name_value { name.now ≡ name.now }
    ensures bytes_value { bytes.now ≡ bytes.now }
    ensures written { result ≡ true → Appends (W.contents out.old) (W.contents out.new) bytes.now }
    ensures silent { result ≡ true → err.new ≡ err.old }
{
    if out.write_all(bytes).is_ok() {
        return true;
    }
    say(err, name, b": cannot write standard output\n");
    false
}

// The text of so many bytes that a program of this name made of a file, or why it refuses the file: the text goes to the output,
// the refusal to standard error. Whether all was written.
pub fn answer<W: Write, E: Write>(
    out: &mut W,
    err: &mut E,
    name: &[u8],
    text: &[u8],
    made: Result<usize, Refusal>,
) -> bool
    ensures printed { IfOk made (λ n. result ≡ true → Appends (W.contents out.old) (W.contents out.new) (take n text.now)) }
    ensures silent { IsOk made → result ≡ true → err.new ≡ err.old }
    ensures refused { IfErr made (λ why. result ≡ true →
        Appends (E.contents err.old) (E.contents err.new) (complaint name.now why)) }
    ensures kept { IsErr made → out.new ≡ out.old }
{
    match made {
        Ok(n) => print(out, err, name, &text[..n.min(text.len())]),
        Err(why) => say_refused(err, name, why),
    }
}
