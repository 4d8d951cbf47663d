// A script file played on a chip after a reset, and what then differs from the reset as text. The definition is specs/Told;
// playing is the crate chip_play's, and what differs the crate text_changes'. Reading a file and printing the text is the program
// after's.
#![tactic(auto)]

ghost use Rattle.std.specs.Prelude.{◌≡◌, ◌+◌, ◌≤◌, length};
ghost use Rattle.lists.specs.Put.{Added};
ghost use Rattle.chip.specs.State.{named};
ghost use Rattle.chip.specs.View.{view};
ghost use Rattle.script_commands.specs.Translation.{translated, left_by as written_by};
ghost use Rattle.chip_play.specs.Played.{fresh};
ghost use Rattle.text_changes.specs.Changes.{changed};
ghost use Rattle.text_played.specs.Told.{commands_line, tale, told_of, left_of, told, left};

use chip::Chip;
use chip_play::play;
use chip_run::Tally;
use script::Refusal;
use text::{add, add_decimal};
use text_changes::tell_changes;

// What differs from a reset.
fn put_changes(after: Chip, out: &mut [u8]) -> usize
    requires { 38430 ≤ length out.old }
    ensures { Added out.old 0 (changed (named fresh) (named (view after))) out.new result }
{
    tell_changes(Chip::new(0xFF, 0xFF), after, out, 0)
}

// The line of so many commands: of its own, since a word, a number and a line feed are no shorter by a call.
fn put_commands(out: &mut [u8], at: usize, count: usize) -> usize
    requires { at + 30 ≤ length out.old }
    ensures { Added out.old at (commands_line count) out.new result }
{
    let number = add(out, at, b"commands ");
    let end = add_decimal(out, number, count);
    add(out, end, b"\n")
}

// The whole text.
fn put_tale(after: Chip, count: usize, out: &mut [u8]) -> usize
    requires { 38430 ≤ length out.old }
    ensures { Added out.old 0 (tale (named (view after)) count) out.new result }
{
    let end = put_changes(after, out);
    put_commands(out, end, count)
}

// What became of a script, as text in `out`.
fn say(after: Chip, outcome: Result<Tally, Refusal>, out: &mut [u8]) -> Result<usize, Refusal>
    ensures value { result ≡ told_of outcome (named (view after)) (length out.old) }
    ensures out_after { out.new ≡ left_of outcome (named (view after)) out.old }
{
    let tally = outcome?;
    if out.len() < 38430 {
        return Err(Refusal::Room);
    }
    Ok(put_tale(after, tally.count, out))
}

// A script file played, as text in `out`, which wants 38,430 bytes. The other buffer is lent for the commands, 32 bytes a step.
pub fn tell(file: &[u8], work: &mut [u8], out: &mut [u8]) -> Result<usize, Refusal>
    ensures value { result ≡ told file.now (length work.old) (length out.old) }
    ensures out_after { out.new ≡ left file.now (length work.old) out.old }
    ensures work_after { work.new ≡ written_by (translated file.now (length work.old)) file.now work.old }
{
    let played = play(Chip::new(0xFF, 0xFF), file, work);
    say(played.chip, played.outcome, out)
}
