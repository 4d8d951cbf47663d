// Where a step's commands begin in the translation of a script file, in the plain list and in the shorter one: with that as the
// limit of a run, the run ends with the commands of the steps before it. Document 01, "Commands"; document 02, P8; demand 3,
// which looks after each step.
ghost use Rattle.std.specs.Prelude.{◌≡◌};
ghost use Rattle.script_commands.specs.Translation.{begun, of_translated};
ghost use Rattle.script_short.specs.Short.{short_begun};

use crate::told;
use script_commands::step_commands;
use script_short::short_step_commands;

// How many commands the steps before this one have; past the last step, how many there are. A refused file is as for a check.
#[unsafe(no_mangle)]
pub extern "C" fn chips69000_step_commands(file: &[u8], step: usize, value: &mut usize) -> u8
    ensures value { result ≡ (of_translated (begun file.now step)).number }
    ensures value_after { value.new ≡ (of_translated (begun file.now step)).value }
{
    told(step_commands(file, step), value)
}

// The same of the shorter list.
#[unsafe(no_mangle)]
pub extern "C" fn chips69000_short_step_commands(file: &[u8], step: usize, value: &mut usize) -> u8
    ensures value { result ≡ (of_translated (short_begun file.now step)).number }
    ensures value_after { value.new ≡ (of_translated (short_begun file.now step)).value }
{
    told(short_step_commands(file, step), value)
}
