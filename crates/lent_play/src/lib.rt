// A script file played on lent bytes: translated into a lent buffer, and its commands run in place. The text is
// that of crate `chip_play`, whose definition it meets on the chip that the bytes hold. Demand 3 is said of the whole script by
// the contract, and after each step in specs/Demand3.
#![tactic(auto)]

ghost use Rattle.std.specs.Prelude.{◌≡◌, length};
ghost use Rattle.chip_play.specs.Played.{played};
ghost use Rattle.lent_chip.specs.Layout.{view, spare};
ghost use Rattle.lent_chip.specs.Accesses.{Left};
ghost use Rattle.lent_play.specs.Play.{play_answer, buffer_left, ByNameIn, of_lent_played, lent_play_table};

use chip_run::Tally;
use lent_chip::access::{STATE, StateError};
use lent_run::run;
use script::Refusal;
use script_commands::translate;

// A script file on a state. The buffer is lent for the commands, 32 bytes a step.
// The length of the state is tested before the buffer is written: clause buffer_after.
pub fn play(
    state: &mut [u8],
    file: &[u8],
    buffer: &mut [u8],
) -> Result<Result<Tally, Refusal>, StateError>
    ensures value { result ≡ play_answer state.old file.now (length buffer.old) }
    ensures left { Left state.old (played (view state.old) file.now (length buffer.old)).chip (spare state.old) state.new }
    ensures by_name_in { ByNameIn state.old file.now (length buffer.old) state.new result }
    ensures buffer_after { buffer.new ≡ buffer_left state.old file.now buffer.old }
    ensures result_value { of_lent_played result ≡ lent_play_table state.old file.now (length buffer.old) }
{
    if state.len() != STATE {
        return Err(StateError::Length);
    }
    match translate(file, buffer) {
        Err(why) => Ok(Err(why)),
        Ok(k) => {
            let end = 4 * k;
            let tally = run(state, &buffer[..end], k)?;
            Ok(Ok(tally))
        }
    }
}
