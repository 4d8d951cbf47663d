// A script file played on a chip: translated into a lent buffer and run whole. Demand 3 is said in
// specs/Demand3 and proved in proofs/Demand3; the entry here carries it.
#![tactic(auto)]

ghost use Rattle.std.specs.Prelude.{◌≡◌, length};
ghost use Rattle.chip.specs.View.{view};
ghost use Rattle.script_commands.specs.Translation.{translated, left_by};
ghost use Rattle.chip_play.specs.Played.{run_by, played, ByName, of_outcome, play_table};
ghost use Rattle.chip_play.specs.View.{view_performance};

use chip::Chip;
use chip_run::{Tally, run};
use script::Refusal;
use script_commands::translate;

// The state after a script, and what became of it.
#[derive(Clone, Copy)]
pub struct Performance {
    pub chip: Chip,
    pub outcome: Result<Tally, Refusal>,
}

// What a translation answered, played: its commands, which stand in front of a buffer, are run whole.
pub fn run_by(chip: Chip, buffer: &[u8], translated: Result<usize, Refusal>) -> Performance
    ensures { view_performance result ≡ run_by translated (view chip) buffer.now }
{
    match translated {
        Err(why) => Performance {
            chip,
            outcome: Err(why),
        },
        Ok(k) => {
            // Four bytes to each command, or the buffer, where it ends before.
            let end = k.saturating_mul(4).min(buffer.len());
            let ran = run(chip, &buffer[..end], k);
            Performance {
                chip: ran.chip,
                outcome: Ok(ran.tally()),
            }
        }
    }
}

// A script file on a chip. The buffer is lent for the commands, 32 bytes a step.
pub fn play(chip: Chip, file: &[u8], buffer: &mut [u8]) -> Performance
    ensures result_value { view_performance result ≡ played (view chip) file.now (length buffer.old) }
    ensures by_name { ByName (translated file.now (length buffer.old)) (view chip) file.now (view_performance result) }
    ensures buffer_after { buffer.new ≡ left_by (translated file.now (length buffer.old)) file.now buffer.old }
    ensures outcome_value { of_outcome result.outcome ≡ play_table (view chip) file.now (length buffer.old) }
{
    let translated = translate(file, buffer);
    run_by(chip, buffer, translated)
}
