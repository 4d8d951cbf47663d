// Registers and colours by name, on bytes that a caller lends for reading only: no index, no turn and no loading
// state moves. Document 01, "Registers" and "Palette"; document 02, P1, for group 8, AR. A register is asked for by
// its group's number and its index. As by crate `chip`'s `get`, an index that is not listed is answered too, and MSR
// and PALMASK are one register each, whatever the index.
// What is public takes bytes of any length, and refuses all but a state's; then a number that no group has.
#![tactic(auto)]

ghost use Rattle.std.specs.Prelude.{◌≡◌};
ghost use Rattle.chip.specs.State.{named};
ghost use Rattle.chip.specs.Palette.{entry as entry_at, shown as shownOf};
ghost use Rattle.lent_chip.specs.Layout.{view};
ghost use Rattle.lent_names.specs.Answers.{register_answer, entry_answer, pixel_answer};

use chip::Rgb;
use chip::palette::bright;
use lent_chip::access::{STATE, StateError};
use lent_chip::{PALETTE, PALMASK_GROUP, get_at, is_eight_bit};

// Why no register's byte is answered. A case for the length and no `StateError` within: so `register_answer` has it.
#[derive(Clone, Copy)]
pub enum RegisterError {
    // No group has the number.
    NoGroup,
    // The bytes are no state: their length is wrong.
    Length,
}

// The entry of a state's palette at an index.
fn entry(state: &[u8; STATE], e: u8) -> Rgb
    ensures { result ≡ entry_at (named (view state.now)) e }
{
    let at = PALETTE + 3 * (e as usize);
    Rgb {
        red: state[at],
        green: state[at + 1],
        blue: state[at + 2],
    }
}

// The colour that a state shows for a pixel.
#[tactic(auto, unfolding(chip::specs::Palette::shown, chip_registers::specs::Groups::group_at))]
fn shown(state: &[u8; STATE], pixel: u8) -> Rgb
    ensures { result ≡ shownOf (named (view state.now)) pixel }
{
    let eight = is_eight_bit(state);
    let e = entry(state, pixel & get_at(state, PALMASK_GROUP, 0x00));
    Rgb {
        red: bright(eight, e.red),
        green: bright(eight, e.green),
        blue: bright(eight, e.blue),
    }
}

// The byte of a register, by its group's number and its index.
pub fn register_of(state: &[u8], group: u8, index: u8) -> Result<u8, RegisterError>
    ensures { result ≡ register_answer state.now group index }
{
    let state = state.as_array().ok_or(RegisterError::Length)?;
    if group >= 9 {
        return Err(RegisterError::NoGroup);
    }
    Ok(get_at(state, group, index))
}

// The colour that an entry of the palette stores.
pub fn entry_of(state: &[u8], e: u8) -> Result<Rgb, StateError>
    ensures { result ≡ entry_answer state.now e }
{
    let state = state.as_array().ok_or(StateError::Length)?;
    Ok(entry(state, e))
}

// The colour that a pixel shows. Two lines, as of an entry, over another definition.
pub fn colour_of(state: &[u8], pixel: u8) -> Result<Rgb, StateError>
    ensures { result ≡ pixel_answer state.now pixel }
{
    let state = state.as_array().ok_or(StateError::Length)?;
    Ok(shown(state, pixel))
}
