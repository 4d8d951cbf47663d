// A script file played on a chip by its shorter list: document 02, P8. Demand 3 for that list is said in specs/Demand3 and proved
// in proofs/Demand3; the entry here carries it.
#![tactic(auto)]

ghost use Rattle.std.specs.Prelude.{◌≡◌, length};
ghost use Rattle.chip.specs.View.{view};
ghost use Rattle.script_short.specs.Short.{short_translated, short_left_by};
ghost use Rattle.chip_play.specs.Played.{ByName, of_outcome, play_table};
ghost use Rattle.chip_play.specs.View.{view_performance};
ghost use Rattle.chip_short.specs.Played.{short_played};

use chip::Chip;
use chip_play::{Performance, run_by};
use script_short::translate_short;

// A script file on a chip. The buffer is lent for the short commands, 32 bytes a step. Beside `chip_play::play` only the
// translation is another: the two share `run_by`, and a parameter for the translation would make each longer.
pub fn play_short(chip: Chip, file: &[u8], buffer: &mut [u8]) -> Performance
    ensures result_value { view_performance result ≡ short_played (view chip) file.now (length buffer.old) }
    ensures by_name { ByName (short_translated file.now (length buffer.old)) (view chip) file.now (view_performance result) }
    ensures buffer_after { buffer.new ≡ short_left_by (short_translated file.now (length buffer.old)) file.now buffer.old }
    ensures outcome_value { of_outcome result.outcome ≡ play_table (view chip) file.now (length buffer.old) }
{
    let translated = translate_short(file, buffer);
    run_by(chip, buffer, translated)
}
