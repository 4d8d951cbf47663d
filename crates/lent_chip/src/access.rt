// Port reads and writes on lent bytes, in place. Document 01, "Ports" and numbers 0, 1 and 2, and document 02, P1,
// for the attribute registers, P5, for the bits of an index, and P6: what a write did to the register. The text is that
// of crate `chip`'s methods, each callee working on the bytes. A refused access changes no byte.
ghost use Rattle.std.specs.Prelude.{◌≡◌, ◌/◌, ◌%◌};
ghost use Rattle.chip.specs.State.{with_indexes, index_byte, index_of, with_index};
ghost use Rattle.chip.specs.Access.{write_to, read_from, port_written, port_read};
ghost use Rattle.lent_chip.specs.Layout.{view, spare, Holds};
ghost use Rattle.lent_chip.specs.Accesses.{Left, Packed, WroteIn, ReadIn};
ghost use Rattle.lent_chip.specs.Numbers.{write_table, read_table};

use crate::{
    AR_INDEX, CR_INDEX, FR_INDEX, GR_INDEX, INDEX, MR_INDEX, SR_INDEX, UNTOLD, XR_INDEX, aim,
    attribute_index, get, is_open, load, move_on, paldata, palstate, picks_3dx, put, set_turn,
    write_attribute,
};
use chip_ports::{Target, leads_to};
use chip_registers::{Group, index_kept};

// How many bytes a state has.
pub const STATE: usize = 1057;

// What is no state: its length is wrong.
#[derive(Clone, Copy)]
pub enum StateError {
    Length,
}

// Document 01's numbers of an access. An access answers by one word: of a read 256 times the number plus the byte, of a
// write as specs/Accesses packs it. The words go to C as they are, of a write the lower half (`chips69000_port_write`), and
// one number stays in a processor's register, where an enum or a struct would go through memory.
// Here are the writes that are refused: FFh twice.
const UNLISTED: u64 = 0x0100FFFF;

const CLOSED: u64 = 0x0200FFFF;

const NO_STATE: u64 = 0xFF00FFFF;

const UNLISTED_WORD: u16 = 0x1FF;

const CLOSED_WORD: u16 = 0x2FF;

const NO_STATE_WORD: u16 = 0xFFFF;

// The byte that holds a group's index; MSR and PALMASK have none, and stand at 0.
#[tactic(auto, unfolding(crate::specs::Layout::view, crate::specs::Layout::laid, chip::specs::View::view))]
fn index_byte(state: &[u8; STATE], g: Group) -> u8
    ensures { result ≡ index_byte g (view state.now).indexes }
{
    match g {
        Group::Cr => state[CR_INDEX],
        Group::Sr => state[SR_INDEX],
        Group::Gr => state[GR_INDEX],
        Group::Xr => state[XR_INDEX],
        Group::Fr => state[FR_INDEX],
        Group::Mr => state[MR_INDEX],
        Group::Msr => 0x00,
        Group::Palmask => 0x00,
        Group::Ar => state[AR_INDEX],
    }
}

// A group's index: the bits that its index register has.
fn index(state: &[u8; STATE], g: Group) -> u8
    ensures { result ≡ index_of g (view state.now).indexes }
{
    index_kept(g, index_byte(state, g))
}

// A group's index is written: it keeps the bits that its index register has.
fn set_index(state: &mut [u8; STATE], g: Group, v: u8)
    ensures { Holds state.new (with_indexes (view state.old) (with_index g (view state.old).indexes v)) (spare state.old) }
{
    let kept = index_kept(g, v);
    match g {
        Group::Cr => state[CR_INDEX] = kept,
        Group::Sr => state[SR_INDEX] = kept,
        Group::Gr => state[GR_INDEX] = kept,
        Group::Xr => state[XR_INDEX] = kept,
        Group::Fr => state[FR_INDEX] = kept,
        Group::Mr => state[MR_INDEX] = kept,
        Group::Msr => {}
        Group::Palmask => {}
        Group::Ar => state[AR_INDEX] = kept,
    }
}

// A byte written where a port leads.
fn write_to(state: &mut [u8; STATE], t: Target, v: u8) -> u64
    ensures { WroteIn state.old (write_to t (view state.old) v) state.new result }
{
    match t {
        Target::Index(g) => {
            set_index(state, g, v);
            UNTOLD
        }
        Target::Data(g) => {
            let i = index(state, g);
            put(state, g, i, v)
        }
        Target::ReadIndex => {
            aim(state, v, true);
            UNTOLD
        }
        Target::WriteIndex => {
            aim(state, v, false);
            UNTOLD
        }
        Target::Paldata => load(state, v),
        Target::Attribute => write_attribute(state, v),
        Target::Status => UNLISTED,
        Target::NotPicked => UNTOLD,
        Target::NotListed => UNLISTED,
    }
}

// A port write on a state, which answers by a word. It is a call of its own, with the port last: `write_word` then hands the port
// on in the processor's register that it came in.
#[inline(never)]
fn write_port(state: &mut [u8; STATE], v: u8, port: u16) -> u64
    ensures { WroteIn state.old (port_written (view state.old) port v) state.new result }
{
    if !is_open(state) {
        return CLOSED;
    }
    let t = leads_to(picks_3dx(state), true, port);
    write_to(state, t, v)
}

// The same, for crates that have a state as an array.
pub fn write_in(state: &mut [u8; STATE], port: u16, v: u8) -> u64
    ensures { WroteIn state.old (port_written (view state.old) port v) state.new result }
{
    write_port(state, v, port)
}

// A byte that an access shows, as a word.
fn done(value: u8) -> u16
    ensures { (result / 256 ≡ 0) × (result % 256 ≡ value) }
{
    value as u16
}

// A byte read from where a port leads.
fn read_from(state: &mut [u8; STATE], t: Target) -> u16
    ensures { ReadIn state.old (read_from t (view state.old)) state.new result }
{
    match t {
        Target::Index(g) => done(index(state, g)),
        Target::Data(g) => {
            let i = index(state, g);
            done(get(state, g, i))
        }
        Target::ReadIndex => done(palstate(state)),
        Target::WriteIndex => done(state[INDEX]),
        Target::Paldata => {
            let v = paldata(state);
            move_on(state);
            done(v)
        }
        Target::Attribute => done(attribute_index(state)),
        Target::Status => {
            set_turn(state, false);
            done(0x00)
        }
        Target::NotPicked => done(0xFF),
        Target::NotListed => UNLISTED_WORD,
    }
}

// A port read on a state, which answers by a word: its high byte is the number, its low byte the byte.
pub fn read_in(state: &mut [u8; STATE], port: u16) -> u16
    ensures { ReadIn state.old (port_read (view state.old) port) state.new result }
{
    if !is_open(state) {
        return CLOSED_WORD;
    }
    let t = leads_to(picks_3dx(state), false, port);
    read_from(state, t)
}

// A port write on bytes of any length. It is a call of its own too: as a part of the C function, which cuts the word, it would
// keep the access from being the last thing done there.
#[inline(never)]
pub fn write_word(state: &mut [u8], port: u16, v: u8) -> u64
    ensures packed { Packed result (write_table state.old port v) }
    ensures left { Left state.old (port_written (view state.old) port v).chip (spare state.old) state.new }
{
    let Some(state) = state.as_mut_array() else {
        return NO_STATE;
    };
    write_in(state, port, v)
}

// A port read on bytes of any length.
pub fn read_word(state: &mut [u8], port: u16) -> u16
    ensures result_value { result / 256 ≡ (read_table state.old port).number }
    ensures result_value_2 { result % 256 ≡ (read_table state.old port).value }
    ensures left { Left state.old (port_read (view state.old) port).chip (spare state.old) state.new }
{
    let Some(state) = state.as_mut_array() else {
        return NO_STATE_WORD;
    };
    read_in(state, port)
}
