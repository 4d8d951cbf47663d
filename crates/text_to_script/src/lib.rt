// A text made into a script file: a step a line, with comments and blank lines passed over. The definitions are specs/Lines and
// specs/Compose; how a line is read is the crate text_steps's, and the file the crate script_writer's. That composing what the
// crate text_from_script makes of a file gives the file again is proofs/SameFile. Reading a text and printing the file is the
// program compose's.
#![tactic(auto)]

ghost use Rattle.std.specs.Prelude.{◌≡◌, ◌+◌, ◌≤◌, ◌<◌, length};
ghost use Rattle.lists.specs.Put.{Added};
ghost use Rattle.text.specs.Adding.{AddedIn};
ghost use Rattle.script.specs.Numbers.{of_refusal};
ghost use Rattle.script_writer.specs.Write.{written, left_by as written_by};
ghost use Rattle.text_to_script.specs.Lines.{mark_size};
ghost use Rattle.text_to_script.specs.declared.LineError.TheVariants.{Form, Step as Faulty};
ghost use Rattle.text_to_script.specs.declared.ComposeError.TheVariants.{Refused as NotWritten};
ghost use Rattle.text_to_script.specs.Compose.{verdict, line_error_number, verdict_number, of_writer, composed, left_by, of_composed, composed_table};
ghost use Rattle.text_to_script.specs.Complaint.{line_number, wrong, stopped_text, refusal_text, complaint};
ghost use Rattle.text_to_script.specs.Working.{LineEnds, line_size, Kept, Gathers};

use script::Refusal;
use script_steps::{Fault, Step, to_bytes};
use script_writer::write;
use text::{add, add_place};
use text_refusals::add_reason;
use text_steps::{NotAStep, read_line};

// Why a line is not fine: it is of another form; its step does not pass; its step is one too many.
#[derive(Clone, Copy)]
pub enum LineError {
    Form,
    Step(Fault),
    Many,
}

// Why a text is not composed: the line that is not fine, counted from 0, or what the writer refuses. A line's whole verdict
// stands with it, so that each verdict has its complaint; `compose` gives one that is not fine (`stopped-why`).
#[derive(Clone, Copy)]
pub enum ComposeError {
    Stopped(Result<(), LineError>, usize),
    Refused(Refusal),
}

impl LineError {
    // Document 01's number for it; 0 where it has none.
    fn number(self) -> u8
        ensures { result ≡ line_error_number self }
    {
        match self {
            LineError::Form => 0,
            LineError::Step(why) => why.number(),
            LineError::Many => 8,
        }
    }
}

// A line of another form.
impl From<NotAStep> for LineError {
    ghost from_gives = { λ _ r. r ≡ Form };

    fn from(_e: NotAStep) -> LineError {
        LineError::Form
    }
}

// A step that does not pass.
impl From<Fault> for LineError {
    ghost from_gives = { λ fault r. r ≡ Faulty fault };

    fn from(fault: Fault) -> LineError {
        LineError::Step(fault)
    }
}

// What the writer refuses.
impl From<Refusal> for ComposeError {
    ghost from_gives = { λ refusal r. r ≡ NotWritten refusal };

    fn from(refusal: Refusal) -> ComposeError {
        ComposeError::Refused(refusal)
    }
}

// Document 01's number for a verdict; 0 where it has none.
pub fn verdict_number(v: Result<(), LineError>) -> u8
    ensures { result ≡ verdict_number v }
{
    match v {
        Ok(()) => 0,
        Err(why) => why.number(),
    }
}

// What a line comes to, with so many bytes of steps before it.
fn judge(line: Result<Option<Step>, NotAStep>, size: usize) -> Result<(), LineError>
    ensures { result ≡ verdict line size }
{
    let Some(step) = line? else {
        return Ok(());
    };
    script_steps::judge(step)?;
    if size < 6048 {
        return Ok(());
    }
    Err(LineError::Many)
}

// Where the line at a place ends: at its line feed, or at the text's end.
fn line_end(text: &[u8], from: usize) -> usize
    requires { from < length text.now }
    ensures { LineEnds text.now from result }
{
    for i in from..text.len() {
        if text[i] == b'\n' {
            return i;
        }
    }
    text.len()
}

// The step of a line behind the first n bytes of a buffer.
fn keep(steps: &mut [u8], n: usize, line: Result<Option<Step>, NotAStep>) -> usize
    requires { n + line_size line ≤ length steps.old }
    ensures { Kept steps.old n line steps.new result }
{
    let Ok(Some(step)) = line else {
        return n;
    };
    add(steps, n, &to_bytes(step))
}

// How many bytes of the mark of UTF-8 a text begins with.
fn mark_size(text: &[u8]) -> usize
    ensures { result ≡ mark_size text.now }
{
    if text.starts_with(b"\xEF\xBB\xBF") {
        3
    } else {
        0
    }
}

// The steps of a text's lines into a buffer, which has room for 1,008 steps and one more; or the first line that is not fine.
fn gather(text: &[u8], steps: &mut [u8; 6054]) -> Result<usize, ComposeError>
    ensures { Gathers text.now steps.new result }
{
    let mut from = mark_size(text);
    let mut k = 0;
    let mut n = 0;
    // A `while`, since a turn goes on by a whole line and its line feed.
    while from < text.len() {
        let end = line_end(text, from);
        let line = read_line(&text[from..end]);
        if let Err(why) = judge(line, n) {
            return Err(ComposeError::Stopped(Err(why), k));
        }
        n = keep(steps, n, line);
        k += 1;
        from = end + 1;
    }
    Ok(n)
}

// Steps written as a file.
fn finish(steps: &[u8], out: &mut [u8]) -> Result<usize, ComposeError>
    ensures value { result ≡ of_writer (written steps.now (length out.old)) }
    ensures out_after { out.new ≡ written_by (written steps.now (length out.old)) steps.now out.old }
{
    Ok(write(steps, out)?)
}

// A text made into a script file in `out`.
pub fn compose(text: &[u8], out: &mut [u8]) -> Result<usize, ComposeError>
    ensures value { result ≡ composed text.now (length out.old) }
    ensures out_after { out.new ≡ left_by result text.now out.old }
    ensures result_value { of_composed result ≡ composed_table text.now (length out.old) }
{
    let mut steps = [0; 6054];
    let n = gather(text, &mut steps)?;
    finish(&steps[..n], out)
}

// The number of a line, counted from 1.
fn line_number(k: usize) -> usize
    ensures { result ≡ line_number k }
{
    k.wrapping_add(1)
}

// What is wrong with a line. Each of these asks for the room that it takes, as `stopped_text` and `refusal_text` are long.
fn put_wrong(out: &mut [u8], at: usize, number: u8) -> usize
    requires { at + 91 ≤ length out.old }
    ensures { Added out.old at (wrong number) out.new result }
{
    if number == 0 {
        return add(out, at, b"not a step\n");
    }
    add_reason(out, at, number)
}

// A line that is not fine.
fn put_stopped(out: &mut [u8], at: usize, v: Result<(), LineError>, k: usize) -> usize
    requires { at + 128 ≤ length out.old }
    ensures { Added out.old at (stopped_text (verdict_number v) k) out.new result }
{
    let what = add_place(out, at, b"compose: line ", line_number(k));
    put_wrong(out, what, verdict_number(v))
}

// What the writer refuses.
fn put_refusal(out: &mut [u8], at: usize, why: Refusal) -> usize
    requires { at + 128 ≤ length out.old }
    ensures { Added out.old at (refusal_text (of_refusal why).number) out.new result }
{
    let what = add(out, at, b"compose: ");
    add_reason(out, what, why.number())
}

// What is said of an answer.
fn put_complaint(out: &mut [u8], at: usize, c: Result<usize, ComposeError>) -> usize
    requires { at + 128 ≤ length out.old }
    ensures { Added out.old at (complaint c) out.new result }
{
    match c {
        Ok(_) => at,
        Err(ComposeError::Stopped(v, k)) => put_stopped(out, at, v, k),
        Err(ComposeError::Refused(why)) => put_refusal(out, at, why),
    }
}

// What is said of an answer, in one line behind what stands in an output, if there is room for 128 bytes; where the next
// byte goes.
pub fn complain(c: Result<usize, ComposeError>, out: &mut [u8], at: usize) -> usize
    ensures { AddedIn 128 out.old at (complaint c) out.new result }
{
    if text::has_room(out.len(), at, 128, 0) {
        return put_complaint(out, at, c);
    }
    at
}
