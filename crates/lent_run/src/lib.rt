// The run of a list of commands on lent bytes, up to a limit, in place. Document 01, "Commands". The text is
// that of crate `chip_run`, whose definition it meets on the chip that the bytes hold: no state is copied. Document 02,
// P6: how many commands changed a register or a colour.
#![tactic(auto)]

ghost use Rattle.std.specs.Prelude.{◌≡◌, not, ◌||◌, ◌/◌, ◌%◌, eqb, leb, Ok};
ghost use Rattle.chip.specs.Access.{port_written, port_read};
ghost use Rattle.script_commands.specs.Command.{command_of};
ghost use Rattle.chip_run.specs.Run.{after_write, after_read, done, one, ran as ranOf};
ghost use Rattle.lent_chip.specs.Layout.{view, spare};
ghost use Rattle.lent_chip.specs.Accesses.{Left};
ghost use Rattle.lent_run.specs.Run.{run_answer, of_lent_ran, lent_run_table, reason_of, verdict_of, DidIn, RanIn};

use chip_run::{Ending, Reason, Tally};
use lent_chip::access::{STATE, StateError, read_in, write_in};
use script_commands::{Command, command_of};

// One command: whether it was done, the accumulator after it, and whether a register or a colour differs then.
#[derive(Clone, Copy)]
struct Turn {
    verdict: Result<(), Reason>,
    acc: u8,
    changed: bool,
}

// The reason that a refused command's number stands for: an access on a state answers by a number (crate `lent_chip` says why).
fn reason_of(n: u8) -> Reason
    ensures { result ≡ reason_of n }
{
    match n {
        10 => Reason::Form,
        2 => Reason::Closed,
        _ => Reason::Unlisted,
    }
}

// What an access's number says of its command: crate `lent_chip` answers by a word, which goes to C as it is.
fn verdict_of(n: u8) -> Result<(), Reason>
    ensures { result ≡ verdict_of n }
{
    match n {
        0 => Ok(()),
        _ => Err(reason_of(n)),
    }
}

// Whether a write's word says that a register or a colour differs.
fn changed_by(w: u64) -> bool
    ensures { result ≡ not (eqb (w / 256 % 256) (w % 256)) || leb 4294967296 w }
{
    (w / 256 % 256 != w % 256) | (w >= 4294967296)
}

// A command that writes a port.
fn send(state: &mut [u8; STATE], acc: u8, port: u16, v: u8) -> Turn
    ensures { DidIn state.old (after_write acc (port_written (view state.old) port v)) state.new result }
{
    let w = write_in(state, port, v);
    Turn {
        verdict: verdict_of((w / 16777216 % 256) as u8),
        acc,
        changed: changed_by(w),
    }
}

// A command that reads a port.
fn fetch(state: &mut [u8; STATE], port: u16) -> Turn
    ensures { DidIn state.old (after_read (port_read (view state.old) port)) state.new result }
{
    let w = read_in(state, port);
    Turn {
        verdict: verdict_of((w / 256) as u8),
        acc: (w % 256) as u8,
        changed: false,
    }
}

// One command of a known form.
#[tactic(auto, unfolding(chip_run::specs::Run::done))]
fn carry_out(state: &mut [u8; STATE], acc: u8, c: Command) -> Turn
    ensures { DidIn state.old (done (view state.old) acc c) state.new result }
{
    match c {
        Command::Out(port, v) => send(state, acc, port, v),
        Command::In(port) => fetch(state, port),
        Command::Merge(keep, set) => Turn {
            verdict: Ok(()),
            acc: (acc & keep) | set,
            changed: false,
        },
        Command::OutAcc(port) => send(state, acc, port, acc),
    }
}

// Four bytes as a command.
#[tactic(auto, unfolding(chip_run::specs::Run::one))]
fn command(state: &mut [u8; STATE], acc: u8, a: u8, b: u8, c: u8, d: u8) -> Turn
    ensures { DidIn state.old (one (view state.old) acc (command_of a b c d)) state.new result }
{
    let Some(x) = command_of(a, b, c, d) else {
        return Turn {
            verdict: Err(Reason::Form),
            acc,
            changed: false,
        };
    };
    carry_out(state, acc, x)
}

// The commands of a list on a state, up to a limit.
fn run_in(state: &mut [u8; STATE], commands: &[u8], limit: usize) -> Tally
    ensures { RanIn state.old (ranOf (view state.old) commands.now limit) state.new (Ok result) }
{
    let (commands, []) = commands.as_chunks::<4>() else {
        return Tally {
            count: 0,
            changing: 0,
            ending: Ending::Stopped(0, Reason::Form),
        };
    };
    let mut acc = 0;
    let mut changing = 0;
    for (place, &[a, b, c, d]) in commands.iter().enumerate() {
        if place == limit {
            return Tally {
                count: place,
                changing,
                ending: Ending::AtLimit,
            };
        }
        let turn = command(state, acc, a, b, c, d);
        if let Err(why) = turn.verdict {
            return Tally {
                count: place,
                changing,
                ending: Ending::Stopped(place, why),
            };
        }
        acc = turn.acc;
        changing += usize::from(turn.changed);
    }
    Tally {
        count: commands.len(),
        changing,
        ending: Ending::Ended,
    }
}

// The commands of a list, up to a limit.
pub fn run(state: &mut [u8], commands: &[u8], limit: usize) -> Result<Tally, StateError>
    ensures value { result ≡ run_answer state.old commands.now limit }
    ensures left { Left state.old (ranOf (view state.old) commands.now limit).chip (spare state.old) state.new }
    ensures result_value { of_lent_ran result ≡ lent_run_table state.old commands.now limit }
{
    let state = state.as_mut_array().ok_or(StateError::Length)?;
    Ok(run_in(state, commands, limit))
}
