// The listing of a script file as text: a header, then a line for each of its commands; or the number of its
// refusal. Document 01, "The listing program", and document 02, P6: how many commands change a register or a colour on a
// chip after a reset. The commands are those of the plain list, or of the shorter list of document 02, P8. The definition is
// specs/Text, with the lines in specs/Line and the digits in the crate text. Reading a file and printing the text is the
// programs', listing and short.
#![tactic(auto)]

ghost use Rattle.std.specs.Prelude.{◌≡◌, ◌++◌, ◌+◌, ◌*◌, ◌≤◌, length};
ghost use Rattle.script_commands.specs.Translation.{translated, left_by as translatedBy};
ghost use Rattle.script_short.specs.Short.{short_translated, short_left_by};
ghost use Rattle.text.specs.Ascii.{ascii};
ghost use Rattle.text.specs.Digits.{byte_digits, port_digits};
ghost use Rattle.text.specs.Adding.{AddedIn};
ghost use Rattle.text_listing.specs.Line.{words, line};
ghost use Rattle.text.specs.Refused.{refused};
ghost use Rattle.text_listing.specs.Text.{counts_line, changing_line, header, text, short_text, listed_by, listed, short_listed, left_by, of_listed, listed_table, short_listed_table};
ghost use Rattle.lists.specs.Put.{Added};
ghost use Rattle.text_listing.specs.Adding.{line_read, lines_to, answer_of, Stands, text_of};

use chip::Chip;
use chip_play::play;
use chip_run::Tally;
use chip_short::play_short;
use script::{Refusal, step_count};
use script_commands::{Command, command_of};
use text::{add, add_byte, add_decimal, add_refused, digit, has_room};

// Why a file is not listed: it is refused, and its text of so many bytes says so; or the output is too short.
#[derive(Clone, Copy)]
pub enum ListError {
    Refused(Refusal, usize),
    Short,
}

// The digits of a port.
fn put_port(out: &mut [u8], at: usize, port: u16) -> usize
    requires { at + 3 ≤ length out.old }
    ensures { Added out.old at (port_digits port) out.new result }
{
    add(out, at, &[digit(port / 256), digit(port / 16), digit(port)])
}

// The words of a command.
fn put_words(out: &mut [u8], at: usize, c: Command) -> usize
    requires { at + 11 ≤ length out.old }
    ensures { Added out.old at (words c) out.new result }
{
    match c {
        Command::Out(port, value) => {
            let word = add(out, at, b"OUT ");
            let number = put_port(out, word, port);
            add_byte(out, number, value)
        }
        Command::In(port) => {
            let word = add(out, at, b"IN ");
            put_port(out, word, port)
        }
        Command::Merge(keep, set) => {
            let word = add(out, at, b"MERGE");
            let kept = add_byte(out, word, keep);
            add_byte(out, kept, set)
        }
        Command::OutAcc(port) => {
            let word = add(out, at, b"OUTA ");
            put_port(out, word, port)
        }
    }
}

// The words of a command, at a place of an output that has 11 bytes from there on; where the next byte goes. With less
// room nothing changes.
pub fn add_words(out: &mut [u8], at: usize, c: Command) -> usize
    ensures { AddedIn 11 out.old at (words c) out.new result }
{
    if has_room(out.len(), at, 11, 0) {
        return put_words(out, at, c);
    }
    at
}

// The line of a command.
fn add_line(out: &mut [u8], at: usize, c: Command) -> usize
    requires { at + 12 ≤ length out.old }
    ensures { Added out.old at (line c) out.new result }
{
    let end = put_words(out, at, c);
    add(out, end, b"\n")
}

// The line of what four bytes were read as: a match, since `line_read` has a line for each case.
fn add_read(out: &mut [u8], at: usize, c: Option<Command>) -> usize
    requires { at + 12 ≤ length out.old }
    ensures { Added out.old at (line_read c) out.new result }
{
    match c {
        Some(x) => add_line(out, at, x),
        None => at,
    }
}

// The lines of the first n commands of a list of bytes.
fn add_lines(out: &mut [u8], from: usize, bytes: &[u8], n: usize) -> usize
    requires { (4 * n ≤ length bytes.now) × (from + 12 * n ≤ length out.old) }
    ensures { Added out.old from (lines_to bytes.now n) out.new result }
{
    let mut at = from;
    for j in 0..n {
        let p = 4 * j;
        let c = command_of(bytes[p], bytes[p + 1], bytes[p + 2], bytes[p + 3]);
        at = add_read(out, at, c);
    }
    at
}

// The header's first line.
fn add_counts(out: &mut [u8], steps: usize, commands: usize) -> usize
    requires { 57 ≤ length out.old }
    ensures { Added out.old 0 (counts_line steps commands) out.new result }
{
    let first = add(out, 0, b"steps ");
    let word = add_decimal(out, first, steps);
    let second = add(out, word, b" commands ");
    let end = add_decimal(out, second, commands);
    add(out, end, b"\n")
}

// The header's second line: of its own, since a word, a number and a line feed are no shorter by a call.
fn add_changing(out: &mut [u8], at: usize, changing: usize) -> usize
    requires { at + 30 ≤ length out.old }
    ensures { Added out.old at (changing_line changing) out.new result }
{
    let word = add(out, at, b"changing ");
    let end = add_decimal(out, word, changing);
    add(out, end, b"\n")
}

// The header.
fn add_header(out: &mut [u8], steps: usize, commands: usize, changing: usize) -> usize
    requires { 87 ≤ length out.old }
    ensures { Added out.old 0 (header steps commands changing) out.new result }
{
    let at = add_counts(out, steps, commands);
    add_changing(out, at, changing)
}

// The header and the lines of k commands.
fn add_text(out: &mut [u8], steps: usize, changing: usize, bytes: &[u8], k: usize) -> usize
    requires { (4 * k ≤ length bytes.now) × (87 + 12 * k ≤ length out.old) }
    ensures { Added out.old 0 (header steps k changing ++ lines_to bytes.now k) out.new result }
{
    let at = add_header(out, steps, k, changing);
    add_lines(out, at, bytes, k)
}

// The listing of a script file of which a play answered this and left its commands in front of `work`.
fn put_listing(
    out: &mut [u8],
    file: &[u8],
    work: &[u8],
    outcome: Result<Tally, Refusal>,
) -> Result<usize, ListError>
    requires { Stands outcome work.now }
    ensures value { result ≡ listed_by (answer_of outcome) (text_of outcome file.now work.now) (length out.old) }
    ensures out_after { out.new ≡ left_by result (text_of outcome file.now work.now) out.old }
{
    match outcome {
        Err(r) => {
            if out.len() < 87 {
                return Err(ListError::Short);
            }
            let size = add_refused(out, 0, usize::from(r.number()));
            Err(ListError::Refused(r, size))
        }
        Ok(tally) => {
            if out.len() < 87 + 12 * tally.count {
                return Err(ListError::Short);
            }
            Ok(add_text(out, step_count(file), tally.changing, work, tally.count))
        }
    }
}

// The listing of a script file into `out`; its commands go to `work`, which wants 32 bytes a step.
pub fn list(file: &[u8], work: &mut [u8], out: &mut [u8]) -> Result<usize, ListError>
    ensures value { result ≡ listed file.now (length work.old) (length out.old) }
    ensures out_after { out.new ≡ left_by result (text file.now (length work.old)) out.old }
    ensures work_after { work.new ≡ translatedBy (translated file.now (length work.old)) file.now work.old }
    ensures result_value { of_listed result ≡ listed_table file.now (length work.old) (length out.old) }
{
    let played = play(Chip::new(0xFF, 0xFF), file, work);
    put_listing(out, file, work, played.outcome)
}

// The same of the shorter list of its commands: document 02, P8. Two lines each, over another play with other definitions.
pub fn list_short(file: &[u8], work: &mut [u8], out: &mut [u8]) -> Result<usize, ListError>
    ensures value { result ≡ short_listed file.now (length work.old) (length out.old) }
    ensures out_after { out.new ≡ left_by result (short_text file.now (length work.old)) out.old }
    ensures work_after { work.new ≡ short_left_by (short_translated file.now (length work.old)) file.now work.old }
    ensures result_value { of_listed result ≡ short_listed_table file.now (length work.old) (length out.old) }
{
    let played = play_short(Chip::new(0xFF, 0xFF), file, work);
    put_listing(out, file, work, played.outcome)
}
