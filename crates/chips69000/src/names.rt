// Registers and colours by name, whatever any index holds: the state is lent for reading only, so no index, no turn and
// no loading state moves. Document 01, "Registers" and "Palette"; document 02, P1, for group 8. A register comes as 256
// times the number plus the byte, a colour as the number above red, green and blue (crate `lent_names`, specs/Numbers).
ghost use Rattle.std.specs.Prelude.{◌≡◌};
ghost use Rattle.lent_names.specs.Answers.{register_answer, entry_answer, pixel_answer};
ghost use Rattle.lent_names.specs.Numbers.{register_word, colour_word};

use chip::Rgb;
use lent_chip::access::StateError;
use lent_names::{RegisterError, colour_of, entry_of, register_of};

// What is answered of a colour, as one number.
fn colour_word(a: Result<Rgb, StateError>) -> u32
    ensures { result ≡ colour_word a }
{
    match a {
        Ok(c) => 65536 * (c.red as u32) + 256 * (c.green as u32) + (c.blue as u32),
        Err(StateError::Length) => 0xFF000000,
    }
}

// What is answered of a register, as one number.
fn register_word(a: Result<u8, RegisterError>) -> u16
    ensures { result ≡ register_word a }
{
    match a {
        Ok(b) => b as u16,
        Err(RegisterError::NoGroup) => 0xFEFF,
        Err(RegisterError::Length) => 0xFFFF,
    }
}

// A register, by the number of its group and its index.
#[unsafe(no_mangle)]
pub extern "C" fn chips69000_register(state: &[u8], group: u8, index: u8) -> u16
    ensures { result ≡ register_word (register_answer state.now group index) }
{
    register_word(register_of(state, group, index))
}

// The colour that an entry of the palette stores.
#[unsafe(no_mangle)]
pub extern "C" fn chips69000_entry(state: &[u8], entry: u8) -> u32
    ensures { result ≡ colour_word (entry_answer state.now entry) }
{
    colour_word(entry_of(state, entry))
}

// The colour of a pixel.
#[unsafe(no_mangle)]
pub extern "C" fn chips69000_pixel(state: &[u8], pixel: u8) -> u32
    ensures { result ≡ colour_word (pixel_answer state.now pixel) }
{
    colour_word(colour_of(state, pixel))
}
