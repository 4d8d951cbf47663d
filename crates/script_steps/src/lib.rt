// One step of a script: an enum of three kinds, six bytes read as a step or refused, and a step written as
// six bytes (document 01, Scripts; document 02, P1, P2 and P5; numbers 7 and 11). Which step passes stands in one
// definition, `judged` of specs/Step, and in one function, `judge`. Group and index are numbers here; which
// bits of their register can be written is asked of the register's row, and what the register holds is the
// chip's.
#![tactic(auto)]

ghost use Rattle.std.specs.Prelude.{◌≡◌, [], ◌∷◌, take, drop};
ghost use Rattle.script_steps.specs.Step.{names, legal, unwritable, idle, judged, shaped, step_of, read_at, bytes_of, fault_number, step_read_number, step_table, bytes_table};

use chip_masks::writable;
use chip_registers::{group_at, index_fits};

// A step read is one of three kinds, and otherwise a refusal. Group and index stay numbers: `judged` and `bytes_of` speak of
// steps of any group and index, the illegal ones too.
#[derive(Clone, Copy)]
pub enum Step {
    Set {
        group: u8,
        index: u8,
        value: u8,
    },
    Field {
        group: u8,
        index: u8,
        value: u8,
        mask: u8,
    },
    Colour {
        entry: u8,
        red: u8,
        green: u8,
        blue: u8,
    },
}

// Why a step is refused.
#[derive(Clone, Copy)]
pub enum Fault {
    // It is none of the allowed.
    Unallowed,
    // It can do nothing: no bit of its register can be written.
    Idle,
}

impl Fault {
    // The number returned: by name, as `fault_number`, which the clause cites.
    pub fn number(self) -> u8
        ensures { result ≡ fault_number self }
    {
        match self {
            Fault::Unallowed => 7,
            Fault::Idle => 11,
        }
    }
}

// Whether there is this group, and a register of it can have this index.
#[tactic(auto, unfolding(crate::specs::Step::names))]
pub fn is_named(group: u8, index: u8) -> bool
    ensures { result ≡ names group index }
{
    group < 9 && index_fits(group_at(group), index) && (group < 8 || index < 0x15)
}

// Whether a step is legal.
#[tactic(auto, unfolding(crate::specs::Step::legal))]
fn is_legal(step: Step) -> bool
    ensures { result ≡ legal step }
{
    match step {
        Step::Set { group, index, .. } => is_named(group, index),
        Step::Field {
            group,
            index,
            value,
            mask,
        } => is_named(group, index) && (value & mask == value),
        Step::Colour { .. } => true,
    }
}

// Whether no bit of a register can be written.
fn is_unwritable(group: u8, index: u8) -> bool
    ensures { result ≡ unwritable group index }
{
    writable(group_at(group), index) == 0
}

// Whether a step can do nothing.
#[tactic(auto, unfolding(crate::specs::Step::idle))]
fn is_idle(step: Step) -> bool
    ensures { result ≡ idle step }
{
    match step {
        Step::Set { group, index, .. } | Step::Field { group, index, .. } => is_unwritable(
            group, index,
        ),
        Step::Colour { .. } => false,
    }
}

// What a step comes to: it passes, or why it is refused.
#[tactic(auto, unfolding(crate::specs::Step::judged))]
pub fn judge(step: Step) -> Result<Step, Fault>
    ensures value { result ≡ judged step }
    ensures result_value { step_read_number result ≡ step_table step }
{
    if !is_legal(step) {
        return Err(Fault::Unallowed);
    }
    if is_idle(step) {
        return Err(Fault::Idle);
    }
    Ok(step)
}

// Six bytes by their kind, and the bytes that have to be 0.
#[tactic(auto, unfolding(crate::specs::Step::shaped))]
fn shape(a: u8, b: u8, c: u8, d: u8, e: u8, f: u8) -> Result<Step, Fault>
    ensures { result ≡ shaped a b c d e f }
{
    match [a, b, c, d, e, f] {
        [1, group, index, value, 0, 0] => Ok(Step::Set {
            group,
            index,
            value,
        }),
        [2, group, index, value, mask, 0] => Ok(Step::Field {
            group,
            index,
            value,
            mask,
        }),
        [3, entry, red, green, blue, 0] => Ok(Step::Colour {
            entry,
            red,
            green,
            blue,
        }),
        _ => Err(Fault::Unallowed),
    }
}

// Six bytes read as a step, or refused. They stay six parameters, as in the definition `shaped`.
#[tactic(auto, unfolding(crate::specs::Step::step_of, crate::specs::Step::bytes_table), using(crate::proofs::Codec::unshaped))]
pub fn of_bytes(a: u8, b: u8, c: u8, d: u8, e: u8, f: u8) -> Result<Step, Fault>
    ensures value { result ≡ step_of (a ∷ b ∷ c ∷ d ∷ e ∷ f ∷ []) }
    ensures result_value { step_read_number result ≡ bytes_table (a ∷ b ∷ c ∷ d ∷ e ∷ f ∷ []) }
{
    judge(shape(a, b, c, d, e, f)?)
}

// The step at a place of a list of bytes. Fewer than six bytes are no step.
#[tactic(auto, using(crate::proofs::Codec::read_short, crate::proofs::Codec::short_number))]
pub fn read_at(list: &[u8], place: usize) -> Result<Step, Fault>
    ensures value { result ≡ read_at list.now place }
    ensures result_value { step_read_number result ≡ bytes_table (take 6 (drop place list.now)) }
{
    let Some([a, b, c, d, e, f, ..]) = list.get(place..) else {
        return Err(Fault::Unallowed);
    };
    of_bytes(*a, *b, *c, *d, *e, *f)
}

// A step written as six bytes, whether it is legal or not.
#[tactic(auto, unfolding(crate::specs::Step::bytes_of))]
pub fn to_bytes(step: Step) -> [u8; 6]
    ensures { result ≡ bytes_of step }
{
    match step {
        Step::Set {
            group,
            index,
            value,
        } => [1, group, index, value, 0, 0],
        Step::Field {
            group,
            index,
            value,
            mask,
        } => [2, group, index, value, mask, 0],
        Step::Colour {
            entry,
            red,
            green,
            blue,
        } => [3, entry, red, green, blue, 0],
    }
}
