// A reset on lent bytes. Document 01, "Registers" and "Palette", and document 02, P1: what a reset leaves, by its
// two pin bytes.
// Whatever the bytes held, they hold afterwards the chip that crate `chip`'s reset gives, and their spare bits
// (crate `lent_chip`, specs/Layout) are 0: a host need not clear the bytes before the first reset.
#![tactic(auto)]

ghost use Rattle.std.specs.Prelude.{◌≡◌};
ghost use Rattle.chip_registers.specs.Groups.{group_at};
ghost use Rattle.chip.specs.Reset.{reset as reset_of};
ghost use Rattle.lent_chip.specs.Layout.{Holds};
ghost use Rattle.lent_chip.specs.Accesses.{Left};
ghost use Rattle.lent_reset.specs.Fresh.{stored, reset_answer};

use chip::after_reset;
use chip_masks::entry_at;
use chip_registers::group_at;
use lent_chip::access::{STATE, StateError};
use lent_chip::place;

// A register's byte is stored where it stands; an unlisted index has no byte.
fn store(state: &mut [u8; STATE], n: u8, i: u8, v: u8)
    ensures { state.new ≡ stored state.old (group_at n) i v }
{
    let e = entry_at(n, i);
    let at = place(n, i);
    if e.standing / 128 % 2 == 1 {
        state[at] = v;
    }
}

// Every byte of a state: the registers by name, nine groups with 256 indexes each, and 0 elsewhere. MSR and PALMASK have the
// same byte under each index.
fn fill(state: &mut [u8; STATE], first: u8, second: u8)
    ensures { Holds state.new (reset_of first second) 0 }
{
    state.fill(0);
    for n in 0..9 {
        let g = group_at(n);
        for i in 0..=255 {
            store(state, n, i, after_reset(g, i, first, second));
        }
    }
}

// A reset that lends two pin bytes.
pub fn reset(state: &mut [u8], first: u8, second: u8) -> Result<(), StateError>
    ensures value { result ≡ reset_answer state.old }
    ensures left { Left state.old (reset_of first second) 0 state.new }
{
    let state = state.as_mut_array().ok_or(StateError::Length)?;
    fill(state, first, second);
    Ok(())
}
