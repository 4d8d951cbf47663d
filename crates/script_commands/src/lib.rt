// Commands: four bytes each, and the commands that a script's steps stand for. Document 01, "Commands", and
// number 9 for commands; document 02, P1, for group 8. Running them is crate `chip_run`'s.
#![tactic(auto)]

ghost use Rattle.std.specs.Prelude.{◌≡◌, cond, [], ◌∷◌, ◌++◌, List, ℕ, ◌+◌, ◌*◌, ◌≤◌, ◌%◌, ◌/◌, ltb, length};
ghost use Rattle.script.specs.File.{checked, step_count};
ghost use Rattle.script_steps.specs.declared.Step.{Step};
ghost use Rattle.lists.specs.Put.{Added};
ghost use Rattle.script_commands.specs.Command.{bytes_of, bytes_of_all, command_of};
ghost use Rattle.script_commands.specs.Expansion.{ways as ways_of, turned, commands_of};
ghost use Rattle.script_commands.specs.Known.{index_write, expanded_known};
ghost use Rattle.script_commands.specs.Translation.{steps_to, if_room, put_by, if_accepted, room_table, translated, left_by, begun, of_translated, translated_table, begun_table};
ghost use Rattle.lists.specs.Numbers.{returned};
ghost use Rattle.script.specs.Numbers.{checks_table};
ghost use Rattle.script_commands.specs.Working.{at_port, indexed, by_way, Wrote, without_step, StepsPut};
ghost use Rattle.script_commands.specs.declared.Command.{Command};

use script::{Refusal, check_file};
use script_reader::nth;
use script_steps::Step;

// A command is one of four kinds.
#[derive(Clone, Copy)]
pub enum Command {
    // A byte to a port.
    Out(u16, u8),
    // A byte from a port to the accumulator.
    In(u16),
    // The accumulator AND `keep`, OR `set`.
    Merge(u8, u8),
    // The accumulator to a port.
    OutAcc(u16),
}

// How a group's registers are reached.
#[derive(Clone, Copy)]
pub enum Ways {
    // An index port and a data port.
    Pair(u16, u16),
    // Two such pairs, one after the other.
    Pairs(u16, u16, u16, u16),
    // A port to write and a port to read, with no index.
    Direct(u16, u16),
    // A port that takes index and data by turns and reads the index, and a port that reads the data.
    Turns(u16, u16),
    // There is no such group. It stands among the ways, and is no Option's None: `ways`, `set_by` and `field_by` of
    // specs/Expansion have a line for it, and what they say may not change.
    Nowhere,
}

// What a group's data port receives: a byte, or its own byte AND `keep`, OR `set`.
#[derive(Clone, Copy)]
enum Data {
    Byte(u8),
    Merged(u8, u8),
}

impl Data {
    // How many commands that is.
    fn count(self) -> usize
        ensures count { (w r : ℕ) → result ≡ length (at_port w r self) }
        ensures upper_bound { result ≤ 3 }
    {
        match self {
            Data::Byte(_) => 1,
            Data::Merged(..) => 3,
        }
    }
}

// Four bytes read as a command; none of another form. This and `to_bytes` are no TryFrom and From: these two public functions
// stand, and an impl beside them would say the same twice. The last byte is asked for behind the first kind: the compiler makes of
// a match on all four kinds at once a jump through a table, which cannot be foreseen, at each command of a run.
#[tactic(auto, using(std::proofs::lemmas::Bool::Decides::nat_tests), unfolding(crate::specs::Command::command_of))]
pub fn command_of(a: u8, b: u8, c: u8, d: u8) -> Option<Command>
    ensures { result ≡ command_of a b c d }
{
    let port = u16::from_le_bytes([b, c]);
    match a {
        1 => Some(Command::Out(port, d)),
        _ if d != 0 => None,
        2 => Some(Command::In(port)),
        3 => Some(Command::Merge(b, c)),
        4 => Some(Command::OutAcc(port)),
        _ => None,
    }
}

// A command of this kind as four bytes, with its port low byte first.
fn with_port(kind: u8, port: u16, last: u8) -> [u8; 4]
    ensures { result ≡ kind ∷ port % 256 ∷ port / 256 ∷ last ∷ [] }
{
    let [low, high] = port.to_le_bytes();
    [kind, low, high, last]
}

// A command as four bytes.
pub fn to_bytes(c: Command) -> [u8; 4]
    ensures { result ≡ bytes_of c }
{
    match c {
        Command::Out(port, v) => with_port(1, port, v),
        Command::In(port) => with_port(2, port, 0),
        Command::Merge(keep, set) => [3, keep, set, 0],
        Command::OutAcc(port) => with_port(4, port, 0),
    }
}

// The ports of a group, by its number: a step names its group so.
#[tactic(auto, using(std::proofs::lemmas::Bool::Decides::nat_tests), unfolding(crate::specs::Expansion::ways))]
pub fn ports_of(group: u8) -> Ways
    ensures { result ≡ ways_of group }
{
    match group {
        0 => Ways::Pairs(0x3B4, 0x3B5, 0x3D4, 0x3D5),
        1 => Ways::Pair(0x3C4, 0x3C5),
        2 => Ways::Pair(0x3CE, 0x3CF),
        3 => Ways::Pair(0x3D6, 0x3D7),
        4 => Ways::Pair(0x3D0, 0x3D1),
        5 => Ways::Pair(0x3D2, 0x3D3),
        6 => Ways::Direct(0x3C2, 0x3CC),
        7 => Ways::Direct(0x3C6, 0x3C6),
        8 => Ways::Turns(0x3C0, 0x3C1),
        _ => Ways::Nowhere,
    }
}

// Where commands are written: an output, and the place of the next one.
#[derive(Drop)]
struct Output<'a> {
    bytes: &'a mut [u8],
    at: usize,
}

impl<'a> Output<'a> {
    // One command.
    fn put(&mut self, c: Command)
        requires { self.old.at + 4 ≤ length self.old.bytes.now }
        ensures { Wrote self.old (c ∷ []) self.new }
    {
        self.bytes[self.at..self.at + 4].copy_from_slice(&to_bytes(c));
        self.at += 4;
    }

    // A byte to a port, or what port r holds read, merged and written to port w.
    fn put_data(&mut self, w: u16, r: u16, sent: Data)
        requires { self.old.at + 12 ≤ length self.old.bytes.now }
        ensures wrote { Wrote self.old (at_port w r sent) self.new }
        ensures upper_bound { self.new.at ≤ self.old.at + 12 }
    {
        match sent {
            Data::Byte(v) => self.put(Command::Out(w, v)),
            Data::Merged(keep, set) => {
                self.put(Command::In(r));
                self.put(Command::Merge(keep, set));
                self.put(Command::OutAcc(w))
            }
        }
    }

    // An index, unless it is known to stand.
    fn put_index(&mut self, known: bool, x: u16, i: u8)
        requires { self.old.at + 4 ≤ length self.old.bytes.now }
        ensures wrote { Wrote self.old (index_write known x i) self.new }
        ensures upper_bound { self.new.at ≤ self.old.at + 4 }
    {
        if !known {
            self.put(Command::Out(x, i));
        }
    }

    // An index, unless it is known to stand, and then the data.
    fn put_indexed(&mut self, known: bool, x: u16, i: u8, p: u16, sent: Data)
        requires { self.old.at + 16 ≤ length self.old.bytes.now }
        ensures wrote { Wrote self.old (indexed known x p i sent) self.new }
        ensures upper_bound { self.new.at ≤ self.old.at + 16 }
    {
        self.put_index(known, x, i);
        self.put_data(p, p, sent);
    }

    // The turn returned to index, and an index written with bit 5 as it was.
    fn put_turned(&mut self, p: u16, i: u8)
        requires { self.old.at + 20 ≤ length self.old.bytes.now }
        ensures wrote { Wrote self.old (turned p i) self.new }
        ensures upper_bound { self.new.at ≤ self.old.at + 20 }
    {
        self.put(Command::In(0x3BA));
        self.put(Command::In(0x3DA));
        self.put_data(p, p, Data::Merged(0x20, i));
    }

    // The commands of a SET or a FIELD, by the way its group is reached. A call of its own would have the output, the way and the
    // data in memory, and a translation would be slower by an eighth.
    #[inline(always)]
    fn put_by_way(&mut self, known: bool, w: Ways, i: u8, sent: Data)
        requires { self.old.at + 32 ≤ length self.old.bytes.now }
        ensures { Wrote self.old (by_way known w i sent) self.new }
    {
        match w {
            Ways::Pair(x, p) => self.put_indexed(known, x, i, p, sent),
            Ways::Pairs(x, p, y, q) => {
                self.put_indexed(known, x, i, p, sent);
                self.put_indexed(known, y, i, q, sent)
            }
            Ways::Direct(p, r) => self.put_data(p, r, sent),
            Ways::Turns(p, r) => {
                self.put_turned(p, i);
                self.put_data(p, r, sent)
            }
            Ways::Nowhere => {}
        }
    }

    // The commands of a step, without the writes of its index where that is known to stand.
    fn put_step(&mut self, known: bool, s: Step)
        requires { self.old.at + 32 ≤ length self.old.bytes.now }
        ensures { Wrote self.old (expanded_known known s) self.new }
    {
        match s {
            Step::Set {
                group,
                index,
                value,
            } => self.put_by_way(known, ports_of(group), index, Data::Byte(value)),
            Step::Field {
                group,
                index,
                value,
                mask,
            } => {
                let sent = Data::Merged(0xFF - mask, value);
                self.put_by_way(known, ports_of(group), index, sent)
            }
            Step::Colour {
                entry,
                red,
                green,
                blue,
            } => {
                self.put(Command::Out(0x3C8, entry));
                self.put(Command::Out(0x3C9, red));
                self.put(Command::Out(0x3C9, green));
                self.put(Command::Out(0x3C9, blue))
            }
        }
    }
}

// A step's commands, without the writes of its index where that is known to stand, at a place of an output that has 32 bytes from
// there on; with less room nothing changes. Where the next one goes.
pub fn add_step(out: &mut [u8], at: usize, known: bool, s: Step) -> usize
    ensures { Added out.old at (cond (ltb (length out.old) (at + 32)) [] (bytes_of_all (expanded_known known s))) out.new result }
{
    let size = out.len();
    if size < 32 || size - 32 < at {
        return at;
    }
    let mut output = Output { bytes: out, at };
    output.put_step(known, s);
    output.at
}

// Which list of commands a script is translated into. Each step's commands stand in it with or without the writes of the step's
// index, by what the list keeps in mind of the steps before.
pub trait Listing: Drop {
    // The list of these steps.
    ghost list: { List Step → List Command };

    // What is kept in mind behind these steps.
    ghost Behind: { Self → List Step → Type 0 };

    // Before the first step.
    fn start() -> Self
        ensures none { list [] ≡ [] }
        ensures kept { Behind result [] };

    // Whether the index of the next step is known to stand; then the step is kept in mind.
    fn knows(&mut self, s: Step) -> bool
        ensures more { (ss : List Step) → Behind self.old ss → list (ss ++ (s ∷ [])) ≡ list ss ++ expanded_known result s }
        ensures kept { (ss : List Step) → Behind self.old ss → Behind self.new (ss ++ (s ∷ [])) };
}

// The plain list: no index is known.
#[derive(Drop)]
struct Plain;

impl Listing for Plain {
    ghost list = { commands_of };

    ghost Behind = { λ _ _. Unit {0} };

    fn start() -> Plain {
        Plain
    }

    fn knows(&mut self, _s: Step) -> bool {
        false
    }
}

// What is answered where the reader hands out no step: its refusal, or at the end the commands so far.
#[tactic(auto, unfolding(crate::specs::Working::without_step))]
pub fn without_step(next: Result<Option<Step>, Refusal>, k: usize) -> Result<usize, Refusal>
    ensures { result ≡ without_step next k }
{
    next?;
    Ok(k)
}

// The listed commands of the steps of an accepted file; how many there are. The steps come from document 01's reader that stands
// over the caller's bytes, and its answer is taken apart by let .. else; a refusal goes straight out by `?`. So each step is
// judged again, after `check_file`: the reader's contract is for every file, accepted or not, and a reader that took six bytes
// for a step unjudged would answer by a second definition.
fn put_steps<L: Listing>(file: &[u8], m: usize, out: &mut [u8]) -> Result<usize, Refusal>
    requires accepted { checked file.now ≡ Ok m }
    requires room { 32 * m ≤ length out.old }
    ensures { StepsPut (L.list (steps_to file.now m)) out.old out.new result }
{
    let mut list = L::start();
    let mut at = 0;
    for j in 0..m {
        let next = nth(file, j);
        let Some(step) = next? else {
            return without_step(next, at / 4);
        };
        let known = list.knows(step);
        at = add_step(out, at, known, step);
    }
    Ok(at / 4)
}

// A script file translated into a list of commands: 8, then 6, then 7 or 11, then 9; else how many there are.
pub fn translate_into<L: Listing>(file: &[u8], out: &mut [u8]) -> Result<usize, Refusal>
    ensures value { result ≡ if_room (checked file.now) (λ n. L.list (steps_to file.now n)) (length out.old) }
    ensures out_after { out.new ≡ put_by result (L.list (steps_to file.now (step_count file.now))) out.old }
    ensures number { of_translated result ≡ room_table file.now (λ n. L.list (steps_to file.now n)) (length out.old) }
{
    let m = check_file(file)?;
    if out.len() / 32 < m {
        return Err(Refusal::Room);
    }
    put_steps::<L>(file, m, out)
}

// A script file translated into commands, the plain list: 8, then 6, then 7 or 11, then 9; else how many there are.
#[tactic(auto, unfolding(crate::specs::Translation::translated))]
pub fn translate(file: &[u8], out: &mut [u8]) -> Result<usize, Refusal>
    ensures value { result ≡ translated file.now (length out.old) }
    ensures out_after { out.new ≡ left_by result file.now out.old }
    ensures result_value { of_translated result ≡ translated_table file.now (length out.old) }
{
    translate_into::<Plain>(file, out)
}

// How many commands a SET or a FIELD has, without an output to count them in.
fn way_count(known: bool, w: Ways, sent: Data) -> usize
    ensures { (i : ℕ) → result ≡ length (by_way known w i sent) }
{
    let index = usize::from(!known);
    let count = sent.count();
    match w {
        Ways::Pair(..) => index + count,
        Ways::Pairs(..) => 2 * (index + count),
        Ways::Direct(..) => count,
        Ways::Turns(..) => 5 + count,
        Ways::Nowhere => 0,
    }
}

// How many commands a step has.
fn command_count(known: bool, s: Step) -> usize
    ensures { result ≡ length (expanded_known known s) }
{
    match s {
        Step::Set { group, value, .. } => way_count(known, ports_of(group), Data::Byte(value)),
        Step::Field {
            group,
            value,
            mask,
            ..
        } => {
            let sent = Data::Merged(0xFF - mask, value);
            way_count(known, ports_of(group), sent)
        }
        Step::Colour { .. } => 4,
    }
}

// How many commands of a list the first n steps of an accepted file have, read in the same way. It has a loop of its own: the
// contract of one loop that takes what to do with a step as a closure would be longer than both loops.
fn count_steps<L: Listing>(file: &[u8], n: usize) -> Result<usize, Refusal>
    requires { (m : ℕ) × (checked file.now ≡ Ok m) }
    ensures { result ≡ Ok (length (L.list (steps_to file.now n))) }
{
    let mut list = L::start();
    let mut k = 0;
    for j in 0..n {
        let next = nth(file, j);
        let Some(step) = next? else {
            return without_step(next, k);
        };
        let known = list.knows(step);
        k += command_count(known, step);
    }
    Ok(k)
}

// Where the commands of step n of a file begin in a list: 8, then 6, then 7 or 11; else how many commands the steps before it
// have. Past the last step that is all there are.
pub fn step_commands_in<L: Listing>(file: &[u8], n: usize) -> Result<usize, Refusal>
    ensures value { result ≡ if_accepted (checked file.now) (length (L.list (steps_to file.now n))) }
    ensures number { of_translated result ≡ checks_table file.now (returned 0 (length (L.list (steps_to file.now n)))) }
{
    check_file(file)?;
    count_steps::<L>(file, n)
}

// Where the commands of step n of a file begin in the plain list: 8, then 6, then 7 or 11; else how many commands the steps
// before it have. Past the last step that is all there are.
#[tactic(auto, unfolding(crate::specs::Translation::begun))]
pub fn step_commands(file: &[u8], n: usize) -> Result<usize, Refusal>
    ensures value { result ≡ begun file.now n }
    ensures result_value { of_translated result ≡ begun_table file.now n }
{
    step_commands_in::<Plain>(file, n)
}
