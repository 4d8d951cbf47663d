// Scripts and their commands: checking a file, writing one from a list of steps, translating one into commands and into a shorter
// list of them, the run on the state, and a file played whole. Document 01, "Scripts" and "Commands". The value beside the number
// is written to a place that the caller lends; it is 0 where document 01 says "nothing more".
ghost use Rattle.std.specs.Prelude.{◌≡◌, length};
ghost use Rattle.script.specs.File.{checked};
ghost use Rattle.script.specs.Numbers.{of_checked};
ghost use Rattle.script_writer.specs.Write.{written, of_written, left_by as listLeftBy};
ghost use Rattle.script_commands.specs.Translation.{translated, of_translated, left_by};
ghost use Rattle.script_short.specs.Short.{short_translated, short_left_by};
ghost use Rattle.chip_run.specs.Run.{ran, of_ending, reason_number};
ghost use Rattle.chip_play.specs.Played.{played};
ghost use Rattle.lent_chip.specs.Layout.{view, spare};
ghost use Rattle.lent_chip.specs.Accesses.{Left};
ghost use Rattle.lent_run.specs.Run.{run_answer, of_lent_ran};
ghost use Rattle.lent_play.specs.Play.{play_answer, of_lent_played, buffer_left, ByNameIn};
ghost use Rattle.chips69000.specs.Numbers.{run_count, run_changing, play_count, play_changing};

use crate::{refused, told};
use chip_run::{Ending, Reason};
use lent_chip::access::StateError;
use lent_play::play;
use lent_run::run;
use script::check_file;
use script_commands::translate;
use script_short::translate_short;

// The number of a reason: one that C gets, as `reason_number`.
fn of_reason(why: Reason) -> u8
    ensures { result ≡ reason_number why }
{
    match why {
        Reason::Form => 10,
        Reason::Closed => 2,
        Reason::Unlisted => 1,
    }
}

// How a run ended: its number, and the place of a refused command at a place that the caller lends.
fn ended(ending: Ending, place: &mut usize) -> u8
    ensures number { result ≡ (of_ending ending).number }
    ensures place_after { place.new ≡ (of_ending ending).value }
{
    match ending {
        Ending::Ended | Ending::AtLimit => {
            *place = 0;
            0
        }
        Ending::Stopped(at, why) => {
            *place = at;
            of_reason(why)
        }
    }
}

// A script file checked; the value is its number of steps, or the first offending block's or step's number.
#[unsafe(no_mangle)]
pub extern "C" fn chips69000_check_script(file: &[u8], value: &mut usize) -> u8
    ensures value { result ≡ (of_checked (checked file.now)).number }
    ensures value_after { value.new ≡ (of_checked (checked file.now)).value }
{
    told(check_file(file), value)
}

// A list of steps written as a script file; the value is the number of blocks, or the offending step's number.
#[unsafe(no_mangle)]
pub extern "C" fn chips69000_write_script(steps: &[u8], file: &mut [u8], value: &mut usize) -> u8
    ensures value { result ≡ (of_written (written steps.now (length file.old))).number }
    ensures value_after { value.new ≡ (of_written (written steps.now (length file.old))).value }
    ensures file_after { file.new ≡ listLeftBy (written steps.now (length file.old)) steps.now file.old }
{
    told(script_writer::write(steps, file), value)
}

// A script file translated into commands; the value is their number, or as for a check.
#[unsafe(no_mangle)]
pub extern "C" fn chips69000_translate_script(
    file: &[u8],
    commands: &mut [u8],
    value: &mut usize,
) -> u8
    ensures value { result ≡ (of_translated (translated file.now (length commands.old))).number }
    ensures value_after { value.new ≡ (of_translated (translated file.now (length commands.old))).value }
    ensures commands_after { commands.new ≡ left_by (translated file.now (length commands.old)) file.now commands.old }
{
    told(translate(file, commands), value)
}

// A script file translated into the shorter list of commands: document 02, P8. The value is as for the plain list.
#[unsafe(no_mangle)]
pub extern "C" fn chips69000_translate_short(
    file: &[u8],
    commands: &mut [u8],
    value: &mut usize,
) -> u8
    ensures value { result ≡ (of_translated (short_translated file.now (length commands.old))).number }
    ensures value_after { value.new ≡ (of_translated (short_translated file.now (length commands.old))).value }
    ensures commands_after { commands.new ≡ short_left_by (short_translated file.now (length commands.old)) file.now commands.old }
{
    told(translate_short(file, commands), value)
}

// Commands run on the state, up to a limit; the count is of those carried out, the place a refusal's, and changing of those
// that changed a register or a colour.
#[unsafe(no_mangle)]
pub extern "C" fn chips69000_run(
    state: &mut [u8],
    commands: &[u8],
    limit: usize,
    count: &mut usize,
    place: &mut usize,
    changing: &mut usize,
) -> u8
    ensures value { result ≡ (of_lent_ran (run_answer state.old commands.now limit)).number }
    ensures count_after { count.new ≡ run_count (run_answer state.old commands.now limit) }
    ensures place_after { place.new ≡ (of_lent_ran (run_answer state.old commands.now limit)).value }
    ensures changing_after { changing.new ≡ run_changing (run_answer state.old commands.now limit) }
    ensures left { Left state.old (ran (view state.old) commands.now limit).chip (spare state.old) state.new }
{
    match run(state, commands, limit) {
        Ok(tally) => {
            *count = tally.count;
            *changing = tally.changing;
            ended(tally.ending, place)
        }
        Err(StateError::Length) => {
            *count = 0;
            *place = 0;
            *changing = 0;
            255
        }
    }
}

// A script file played on the state: the entry of demand 3. The commands go to lent bytes, 32 a
// step; the count is of the commands carried out, the value as for a translation or a run, and changing as for a run.
#[unsafe(no_mangle)]
pub extern "C" fn chips69000_play(
    state: &mut [u8],
    file: &[u8],
    commands: &mut [u8],
    count: &mut usize,
    value: &mut usize,
    changing: &mut usize,
) -> u8
    ensures value { result ≡ (of_lent_played (play_answer state.old file.now (length commands.old))).number }
    ensures count_after { count.new ≡ play_count (play_answer state.old file.now (length commands.old)) }
    ensures value_after { value.new ≡ (of_lent_played (play_answer state.old file.now (length commands.old))).value }
    ensures changing_after { changing.new ≡ play_changing (play_answer state.old file.now (length commands.old)) }
    ensures left { Left state.old (played (view state.old) file.now (length commands.old)).chip (spare state.old) state.new }
    ensures by_name_in { ByNameIn state.old file.now (length commands.old) state.new (play_answer state.old file.now (length commands.old)) }
    ensures commands_after { commands.new ≡ buffer_left state.old file.now commands.old }
{
    match play(state, file, commands) {
        Ok(Ok(tally)) => {
            *count = tally.count;
            *changing = tally.changing;
            ended(tally.ending, value)
        }
        Ok(Err(why)) => {
            *count = 0;
            *changing = 0;
            refused(why, value)
        }
        Err(StateError::Length) => {
            *count = 0;
            *value = 0;
            *changing = 0;
            255
        }
    }
}
