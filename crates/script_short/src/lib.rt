// A script file translated into a shorter list of commands: document 02, P8. The definition, on the plain list, is specs/Short.
// The steps are read as for the plain list (crate `script_commands`), and each is put behind the others with or without its
// index: an array has what each group was last sent. So nothing is written that is then taken back.
#![tactic(auto)]

ghost use Rattle.std.specs.Prelude.{◌≡◌, [], length};
ghost use Rattle.script_steps.specs.declared.Step.{Step};
ghost use Rattle.script_commands.specs.Expansion.{commands_of};
ghost use Rattle.script_commands.specs.Translation.{of_translated};
ghost use Rattle.script_short.specs.Short.{shortened, short_translated, short_left_by, short_table, short_begun, short_begun_table};
ghost use Rattle.script_short.specs.Memory.{is_last, minded, nothing, kept_of};

use script::Refusal;
use script_commands::{Listing, step_commands_in, translate_into};
use script_steps::Step;

// The shorter list: it keeps in mind, for each group by its number, the index that its ports were last sent.
#[derive(Drop)]
struct Short {
    last: [Option<u8>; 9],
}

impl Short {
    // Whether a group's index ports were last sent this index; then it is kept in mind. A group above 8 has no ports.
    fn is_sent(&mut self, group: u8, index: u8) -> bool
        ensures sent { result ≡ is_last self.old.last group index }
        ensures kept { self.new.last ≡ minded self.old.last group index }
    {
        let group = group as usize;
        if group >= self.last.len() {
            return false;
        }
        self.last[group].replace(index) == Some(index)
    }
}

impl Listing for Short {
    ghost list = { λ ss. shortened [] (commands_of ss) };

    ghost Behind = { λ s ss. s.last ≡ kept_of nothing ss };

    fn start() -> Short {
        Short { last: [None; 9] }
    }

    fn knows(&mut self, s: Step) -> bool {
        match s {
            Step::Set { group, index, .. } | Step::Field { group, index, .. } => {
                self.is_sent(group, index)
            }
            Step::Colour { .. } => false,
        }
    }
}

// A script file translated into the shorter list: 8, then 6, then 7 or 11, then 9; else how many commands there are.
#[tactic(auto, unfolding(crate::specs::Short::short_translated))]
pub fn translate_short(file: &[u8], out: &mut [u8]) -> Result<usize, Refusal>
    ensures value { result ≡ short_translated file.now (length out.old) }
    ensures out_after { out.new ≡ short_left_by result file.now out.old }
    ensures result_value { of_translated result ≡ short_table file.now (length out.old) }
{
    translate_into::<Short>(file, out)
}

// Where the short commands of step n of a file begin: 8, then 6, then 7 or 11; else how many short commands the steps before it
// have. Past the last step that is all there are.
#[tactic(auto, unfolding(crate::specs::Short::short_begun))]
pub fn short_step_commands(file: &[u8], n: usize) -> Result<usize, Refusal>
    ensures value { result ≡ short_begun file.now n }
    ensures result_value { of_translated result ≡ short_begun_table file.now n }
{
    step_commands_in::<Short>(file, n)
}
