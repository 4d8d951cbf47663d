// A script's commands and what each of them did on a chip after a reset, as text. Document 02, P6. The definition is
// specs/Effects; a command is the crate chip_run's, its words the crate text_listing's, and what differs the crate
// text_changes'. Reading a file and printing the text is the program effects'.
#![tactic(auto)]

ghost use Rattle.std.specs.Prelude.{◌≡◌, ◌+◌, ◌*◌, ◌/◌, ◌%◌, ◌≤◌, length};
ghost use Rattle.lists.specs.Put.{Added};
ghost use Rattle.chip.specs.Differ.{differ};
ghost use Rattle.chip.specs.View.{view};
ghost use Rattle.script_commands.specs.Translation.{translated, left_by as written_by};
ghost use Rattle.chip_run.specs.Run.{reads};
ghost use Rattle.chip_play.specs.Played.{fresh};
ghost use Rattle.text_effects.specs.Effects.{words_read, behind, effects_of, told, left};

use chip::Chip;
use chip_run::command;
use script::Refusal;
use script_commands::{Command, command_of, translate};
use text::add;
use text_changes::tell_changes;
use text_listing::add_words;

// The words of what four bytes were read as: a match, since `words_read` has a line for each case.
fn put_words(c: Option<Command>, out: &mut [u8], at: usize) -> usize
    requires { at + 11 ≤ length out.old }
    ensures { Added out.old at (words_read c) out.new result }
{
    match c {
        Some(x) => add_words(out, at, x),
        None => at,
    }
}

// What a command did, behind its words.
fn put_behind(before: Chip, after: Chip, changed: bool, out: &mut [u8], at: usize) -> usize
    requires room { at + 38403 ≤ length out.old }
    requires told { changed ≡ differ (view before) (view after) }
    ensures { Added out.old at (behind (view before) (view after)) out.new result }
{
    if changed {
        let end = add(out, at, b"   ");
        return tell_changes(before, after, out, end);
    }
    add(out, at, b"\n")
}

// The lines of commands on a chip after a reset.
fn put_effects(bytes: &[u8], out: &mut [u8]) -> usize
    requires { (length bytes.now % 4 ≡ 0) × (38400 + 38 * (length bytes.now / 4) ≤ length out.old) }
    ensures { Added out.old 0 (effects_of fresh 0 (reads bytes.now)) out.new result }
{
    let mut chip = Chip::new(0xFF, 0xFF);
    let mut acc: u8 = 0;
    let mut at: usize = 0;
    for four in bytes.chunks_exact(4) {
        let did = command(chip, acc, four[0], four[1], four[2], four[3]);
        let end = put_words(command_of(four[0], four[1], four[2], four[3]), out, at);
        at = put_behind(chip, did.chip, did.changed, out, end);
        chip = did.chip;
        acc = did.acc;
    }
    at
}

// A script file's effects, as text in `out`, which wants 38,400 bytes and 38 for each command. The other buffer is lent for
// the commands, 32 bytes a step.
pub fn tell(file: &[u8], work: &mut [u8], out: &mut [u8]) -> Result<usize, Refusal>
    ensures value { result ≡ told file.now (length work.old) (length out.old) }
    ensures out_after { out.new ≡ left file.now (length work.old) out.old }
    ensures work_after { work.new ≡ written_by (translated file.now (length work.old)) file.now work.old }
{
    let k = translate(file, work)?;
    if out.len() < 38400 + 38 * k {
        return Err(Refusal::Room);
    }
    Ok(put_effects(&work[..4 * k], out))
}
