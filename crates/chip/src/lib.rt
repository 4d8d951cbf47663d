// The chip: its state by value, its reset, and each register by name. Document 01, "Ports" (the state) and
// "Registers"; document 02, P1, for the attribute registers. The palette is in palette.rt, the attribute port in
// attribute.rt, the port accesses in access.rt. Only `fill` with `new`, `byte` and `put` touch the row, and `stored` and
// `put_colour` the palette; everything else asks for a register or a colour.
#![tactic(auto)]

ghost use Rattle.std.specs.Prelude.{◌≡◌, ◌<◌, ◌≤◌, if◌then◌else◌, Some, None, IfSome};
ghost use Rattle.chip_registers.specs.Groups.{is_indexed};
ghost use Rattle.chip_registers.specs.Row.{before, slot_of, row_size};
ghost use Rattle.chip.specs.State.{named, with_named};
ghost use Rattle.chip.specs.Names.{register, locked as lockedOf, received, ports_open, picks3_dx, eight_bit};
ghost use Rattle.chip.specs.Reset.{reset_byte, reset as reset_of};
ghost use Rattle.chip.specs.View.{view, place_at, Filled};

use chip_masks::standing;
use chip_registers::{Group, group_at, locked_by, reset_byte, writable_now, write};

pub mod access;
pub mod attribute;
pub mod palette;

// How many registers stand in the row.
const ROW: usize = 275;

// A palette entry: three bytes.
#[derive(Clone, Copy, Default, PartialEq, Eq)]
pub struct Rgb {
    pub red: u8,
    pub green: u8,
    pub blue: u8,
}

// The seven index registers, of the attribute index the low five bits, and the turn of 3C0h: whether data comes
// next.
#[derive(Clone, Copy, Default)]
pub struct Indexes {
    pub cr: u8,
    pub sr: u8,
    pub gr: u8,
    pub xr: u8,
    pub fr: u8,
    pub mr: u8,
    pub ar: u8,
    pub turn: bool,
}

// The palette's index and loading state: the position (0 red, 1 green, 2 blue; any other counts as
// red, HOUSE), the bytes held at red and at green, and whether the read index was written last (PALSTATE).
// The position stays a byte: `component`, `held` and `moved` of specs/Palette say what each of its values means.
#[derive(Clone, Copy, Default)]
pub struct Loading {
    pub index: u8,
    pub position: u8,
    pub red: u8,
    pub green: u8,
    pub reading: bool,
}

// What is kept of the state: the listed registers in one row, in the order of the tables and of their indexes
// (document 02, P7). The picture is bit 5 of the attribute index.
#[derive(Clone, Copy)]
pub struct Chip {
    pub row: [u8; ROW],
    pub msr: u8,
    pub palmask: u8,
    pub picture: bool,
    pub palette: [Rgb; 256],
    pub indexes: Indexes,
    pub loading: Loading,
}

// The byte that a reset leaves in an XR register, where the pins are seen: XR70 is the first pin byte
// with bit 0 made 1, XR71 the second, and XR08 bit 1 shows pin CFG1, bit 1 of the first.
#[tactic(auto, unfolding(crate::specs::Reset::reset_byte))]
fn pinned(i: u8, first: u8, second: u8) -> u8
    ensures { result ≡ reset_byte first second Group.Xr i }
{
    match i {
        0x08 => first & 0x02,
        0x70 => first | 0x01,
        0x71 => second,
        _ => reset_byte(Group::Xr, i),
    }
}

// The byte that a reset leaves in a register.
pub fn after_reset(g: Group, i: u8, first: u8, second: u8) -> u8
    ensures { result ≡ reset_byte first second g i }
{
    match g {
        Group::Xr => pinned(i, first, second),
        _ => reset_byte(g, i),
    }
}

// Where a group's registers start in the row; none for MSR and PALMASK, which stand in fields of their own.
fn first_of(g: Group) -> Option<usize>
    ensures start { result ≡ (if is_indexed g then Some (before g) else None) }
    ensures within { IfSome result (λ k. k ≤ row_size) }
{
    match g {
        Group::Cr => Some(0),
        Group::Sr => Some(44),
        Group::Gr => Some(50),
        Group::Xr => Some(59),
        Group::Fr => Some(147),
        Group::Mr => Some(199),
        Group::Msr | Group::Palmask => None,
        Group::Ar => Some(254),
    }
}

// Where a register stands in the row; nowhere for an index that is not listed, MSR and PALMASK.
fn place_of(g: Group, i: u8) -> Option<usize>
    ensures place { result ≡ place_at (slot_of g i) }
    ensures within { IfSome result (λ k. k < row_size) }
{
    let e = standing(g, i);
    if e < 128 {
        return None;
    }
    Some(first_of(g)? + (e - 128) as usize)
}

// The row after a reset: each name's byte at its place.
fn fill(first: u8, second: u8) -> [u8; ROW]
    ensures { Filled first second result }
{
    let mut row = [0; ROW];
    for k in 0..9 {
        let g = group_at(k);
        for i in 0..=255 {
            if let Some(at) = place_of(g, i) {
                row[at] = after_reset(g, i, first, second);
            }
        }
    }
    row
}

impl Chip {
    // The chip after a reset that lends two pin bytes, whatever it held.
    pub fn reset(self, first: u8, second: u8) -> Chip
        ensures { view result ≡ reset_of first second }
    {
        Chip::new(first, second)
    }

    // A chip as its first reset leaves it.
    pub fn new(first: u8, second: u8) -> Chip
        ensures { view result ≡ reset_of first second }
    {
        Chip {
            row: fill(first, second),
            msr: after_reset(Group::Msr, 0, first, second),
            palmask: after_reset(Group::Palmask, 0, first, second),
            picture: false,
            indexes: Indexes::default(),
            loading: Loading::default(),
            palette: [Rgb::default(); 256],
        }
    }

    // The byte of a register, by name.
    pub fn get(self, g: Group, i: u8) -> u8
        ensures { result ≡ register g (named (view self)) i }
    {
        self.byte(g, i)
    }

    // The same of a chip that is looked at where it stands: who asks for one register after another copies no chip for each.
    pub fn byte(&self, g: Group, i: u8) -> u8
        ensures { result ≡ register g (named (view self.now)) i }
    {
        if let Some(at) = place_of(g, i) {
            return self.row[at];
        }
        match g {
            Group::Msr => self.msr,
            Group::Palmask => self.palmask,
            _ => 0x00,
        }
    }

    // Whether a group's registers are under a lock.
    fn locked(self, g: Group) -> bool
        ensures { result ≡ lockedOf g (named (view self)) }
    {
        locked_by(g, self.byte(Group::Cr, 0x11), self.picture)
    }

    // The state after a register has received a byte, by name.
    pub fn put(mut self, g: Group, i: u8, v: u8) -> Chip
        ensures { view result ≡ with_named (view self) (received g (named (view self)) i v) }
    {
        let mask = writable_now(g, self.locked(g), i);
        if let Some(at) = place_of(g, i) {
            self.row[at] = write(self.row[at], v, mask);
            return self;
        }
        match g {
            Group::Msr => self.msr = write(self.msr, v, mask),
            Group::Palmask => self.palmask = write(self.palmask, v, mask),
            _ => {}
        }
        self
    }

    // Whether the ports answer: pin CFG1. This and the next two are a bit each, under the names that the databook gives them.
    pub fn is_open(self) -> bool
        ensures { result ≡ ports_open (named (view self)) }
    {
        self.byte(Group::Xr, 0x70) / 2 % 2 == 1
    }

    // Whether MSR bit 0 picks the CR pair at 3D4h and 3D5h.
    pub fn picks_3dx(self) -> bool
        ensures { result ≡ picks3_dx (named (view self)) }
    {
        self.byte(Group::Msr, 0x00) % 2 == 1
    }

    // Whether the palette is in eight-bit mode: XR80 bit 7.
    pub fn is_eight_bit(self) -> bool
        ensures { result ≡ eight_bit (named (view self)) }
    {
        self.byte(Group::Xr, 0x80) / 128 % 2 == 1
    }
}
