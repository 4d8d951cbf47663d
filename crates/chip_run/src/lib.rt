// The run of a list of commands on a chip, up to a limit. Document 01, "Commands", numbers 10, 2 and 1 in that
// order, and the form of the result: an enum that says how it ended, with an inner enum for the reason. Document 02, P6:
// how many commands changed a register or a colour.
#![tactic(auto)]

ghost use Rattle.std.specs.Prelude.{◌≡◌};
ghost use Rattle.chip.specs.Differ.{differ};
ghost use Rattle.chip.specs.View.{view, view_wrote};
ghost use Rattle.script_commands.specs.Command.{command_of};
ghost use Rattle.chip_run.specs.Run.{reason_of, answered, after_write, done, tally, one, ran as ranOf, least, verdict_number, of_ending, command_table, run_table};
ghost use Rattle.chip_run.specs.View.{view_did, view_ran};

use chip::Chip;
use chip::access::{AccessError, Wrote};
use script_commands::{Command, command_of};

// Why a command is refused: it has no known form, the ports are closed, or its port is not listed.
#[derive(Clone, Copy)]
pub enum Reason {
    Form,
    Closed,
    Unlisted,
}

// One command: its verdict, the accumulator and the state after it, and whether a register or a colour differs then. A refused
// command has all of these too (`done` of specs/Run), so that they stand beside the verdict and not in it.
#[derive(Clone, Copy)]
pub struct Did {
    pub verdict: Result<(), Reason>,
    pub acc: u8,
    pub changed: bool,
    pub chip: Chip,
}

// How a run ended.
#[derive(Clone, Copy)]
pub enum Ending {
    Ended,
    AtLimit,
    Stopped(usize, Reason),
}

// How a run went: how many commands were carried out, how many of these changed a register or a colour, and how it ended.
#[derive(Clone, Copy)]
pub struct Tally {
    pub count: usize,
    pub changing: usize,
    pub ending: Ending,
}

// What a run hands back: the state, how many commands were carried out, how many of these changed a register or a colour,
// and how it ended. No tally stands in it: the clauses of `run` name its fields.
#[derive(Clone, Copy)]
pub struct Ran {
    pub chip: Chip,
    pub count: usize,
    pub changing: usize,
    pub ending: Ending,
}

// A port access's refusal as the reason of its command's.
impl From<AccessError> for Reason {
    ghost from_gives = { λ error why. why ≡ reason_of error };

    // The reason of the same name.
    fn from(error: AccessError) -> Reason {
        match error {
            AccessError::Unlisted => Reason::Unlisted,
            AccessError::Closed => Reason::Closed,
        }
    }
}

impl Ran {
    // How it went, for those who hold the state elsewhere.
    pub fn tally(self) -> Tally
        ensures { result ≡ tally self.count self.changing self.ending }
    {
        Tally {
            count: self.count,
            changing: self.changing,
            ending: self.ending,
        }
    }
}

// A port access's answer as a verdict.
fn judge(a: Result<(), AccessError>) -> Result<(), Reason>
    ensures { result ≡ answered a }
{
    Ok(a?)
}

// A write to a port as a command, looked at where it stands; the accumulator stays.
fn after_write(acc: u8, w: &Wrote) -> Did
    ensures shown { view_did result ≡ after_write acc (view_wrote w.now) }
    ensures counted { result.changed ≡ w.now.changed }
{
    Did {
        verdict: judge(w.answer),
        acc,
        changed: w.changed,
        chip: w.chip,
    }
}

// One command of a known form, on a chip that is looked at where it stands.
fn carry_out(chip: &Chip, acc: u8, c: Command) -> Did
    ensures shown { view_did result ≡ done (view chip.now) acc c }
    ensures counted { result.changed ≡ differ (view chip.now) (done (view chip.now) acc c).chip }
{
    match c {
        Command::Out(port, v) => after_write(acc, &chip.write(port, v)),
        Command::In(port) => {
            let s = chip.read(port);
            Did {
                verdict: judge(s.answer),
                acc: s.value,
                changed: false,
                chip: s.chip,
            }
        }
        Command::Merge(keep, set) => Did {
            verdict: Ok(()),
            acc: (acc & keep) | set,
            changed: false,
            chip: *chip,
        },
        Command::OutAcc(port) => after_write(acc, &chip.write(port, acc)),
    }
}

// Four bytes as a command.
pub fn command(chip: Chip, acc: u8, a: u8, b: u8, c: u8, d: u8) -> Did
    ensures result_value { view_did result ≡ one (view chip) acc (command_of a b c d) }
    ensures verdict_value { verdict_number result.verdict ≡ command_table (view chip) (command_of a b c d) }
    ensures changed_value { result.changed ≡ differ (view chip) (one (view chip) acc (command_of a b c d)).chip }
{
    let Some(x) = command_of(a, b, c, d) else {
        return Did {
            verdict: Err(Reason::Form),
            acc,
            changed: false,
            chip,
        };
    };
    carry_out(&chip, acc, x)
}

// The commands of a list, four bytes each, up to a limit.
pub fn run(mut chip: Chip, commands: &[u8], limit: usize) -> Ran
    ensures result_value { view_ran result ≡ ranOf (view chip) commands.now limit }
    ensures count_value { result.count ≡ least (view chip) commands.now limit }
    ensures ending_value { of_ending result.ending ≡ run_table (view chip) commands.now limit }
{
    let (commands, []) = commands.as_chunks::<4>() else {
        return Ran {
            chip,
            count: 0,
            changing: 0,
            ending: Ending::Stopped(0, Reason::Form),
        };
    };
    let mut acc = 0;
    let mut changing = 0;
    for (place, &[a, b, c, d]) in commands.iter().enumerate() {
        if place == limit {
            return Ran {
                chip,
                count: place,
                changing,
                ending: Ending::AtLimit,
            };
        }
        let did = command(chip, acc, a, b, c, d);
        if let Err(why) = did.verdict {
            return Ran {
                chip,
                count: place,
                changing,
                ending: Ending::Stopped(place, why),
            };
        }
        chip = did.chip;
        acc = did.acc;
        changing += usize::from(did.changed);
    }
    Ran {
        chip,
        count: commands.len(),
        changing,
        ending: Ending::Ended,
    }
}
