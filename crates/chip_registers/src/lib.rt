// The registers of the chip as numbers: which there are, which of their bits can be written, what a
// reset leaves in them, and what a write makes of a byte. Document 01, "Registers"; the rows are those
// of chapters 9 to 12 and 14 to 16 of the databook, MSR by chapter 8 and PALMASK by chapter 13; AR, the
// attribute registers of chapter 12, is document 02's, P1.
// The chip's state is not here: crate `chip` holds it.
#![tactic(auto)]

ghost use Rattle.std.specs.Prelude.{◌-◌, ◌^◌, ◌≡◌};
ghost use Rattle.chip_registers.specs.Groups.{group_at, row_of, writable_of, reset_of};
ghost use Rattle.chip_registers.specs.Indexes.{index_bits, index_kept, fits};
ghost use Rattle.chip_registers.specs.WriteRule.{locked_by, left_open, under_lock, writable_now, written};

mod rows;

// The groups of document 01's table and AR, in the order of their numbers. MSR and PALMASK are groups of one
// register: whatever index goes with them is not looked at.
#[derive(Clone, Copy)]
pub enum Group {
    Cr,
    Sr,
    Gr,
    Xr,
    Fr,
    Mr,
    Msr,
    Palmask,
    Ar,
}

// A register as its chapter lists it: its writable bits and its reset byte.
#[derive(Clone, Copy)]
pub struct Row(pub u8, pub u8);

// The group of a number, 0 to 8; a number above 8 is no group's. It answers AR there and not None: its contract names
// `group_at` of specs/Groups, which gives every number a group.
#[tactic(auto, unfolding(crate::specs::Groups::group_at))]
pub fn group_at(k: u8) -> Group
    ensures { result ≡ group_at k }
{
    match k {
        0 => Group::Cr,
        1 => Group::Sr,
        2 => Group::Gr,
        3 => Group::Xr,
        4 => Group::Fr,
        5 => Group::Mr,
        6 => Group::Msr,
        7 => Group::Palmask,
        _ => Group::Ar,
    }
}

// The bits of a group's index, as a mask.
fn index_mask(g: Group) -> u8
    ensures { result ≡ 2 ^ index_bits g - 1 }
{
    match g {
        Group::Sr => 0x07,
        Group::Gr => 0x0F,
        Group::Ar => 0x1F,
        Group::Msr | Group::Palmask => 0x00,
        _ => 0xFF,
    }
}

// What is kept of a byte that is written as a group's index: a long index folds onto a short one. MSR and PALMASK
// have no index, and keep 0.
#[tactic(auto, using(std::proofs::lemmas::Nat::and_mask), unfolding(crate::specs::Indexes::index_kept))]
pub fn index_kept(g: Group, v: u8) -> u8
    ensures { result ≡ index_kept g v }
{
    v & index_mask(g)
}

// Whether an index fits its group: the index register keeps all of it.
#[tactic(auto, using(crate::proofs::IndexLaws::mask_fits))]
pub fn index_fits(g: Group, i: u8) -> bool
    ensures { result ≡ fits g i }
{
    i <= index_mask(g)
}

// The row of a register; none at an index that the chapter does not list.
#[tactic(auto, unfolding(crate::specs::Groups::row_of))]
pub fn row_of(g: Group, i: u8) -> Option<Row>
    ensures { result ≡ row_of g i }
{
    match g {
        Group::Cr => rows::cr(i),
        Group::Sr => rows::sr(i),
        Group::Gr => rows::gr(i),
        Group::Xr => rows::xr(i),
        Group::Fr => rows::fr(i),
        Group::Mr => rows::mr(i),
        Group::Msr => Some(Row(0xEF, 0x00)),
        Group::Palmask => Some(Row(0xFF, 0x00)),
        Group::Ar => rows::ar(i),
    }
}

// The bits that a write can change, a lock apart; none at an unlisted index.
pub fn writable(g: Group, i: u8) -> u8
    ensures { result ≡ writable_of g i }
{
    row_of(g, i).map_or(0x00, |row| row.0)
}

// The byte that a reset leaves, the pins apart; 00h at an unlisted index.
pub fn reset_byte(g: Group, i: u8) -> u8
    ensures { result ≡ reset_of g i }
{
    row_of(g, i).map_or(0x00, |row| row.1)
}

// Whether a group's lock is on, by the byte of CR11 and by bit 5 of the attribute index.
#[tactic(auto, using(std::proofs::lemmas::Nat::Bits::and_pow), unfolding(crate::specs::WriteRule::locked_by))]
pub fn locked_by(g: Group, cr11: u8, picture: bool) -> bool
    ensures { result ≡ locked_by g cr11 picture }
{
    match g {
        Group::Cr => cr11 & 0x80 != 0,
        Group::Ar => picture,
        _ => false,
    }
}

// What a group's lock leaves open of a register: CR11's protection of CR, the picture of AR.
#[tactic(auto, unfolding(crate::specs::WriteRule::left_open))]
fn left_open(g: Group, i: u8) -> u8
    ensures { result ≡ left_open g i }
{
    match (g, i) {
        (Group::Cr, 0x00..=0x06) => 0x00,
        (Group::Cr, 0x07) => 0x10,
        (Group::Ar, 0x00..=0x0F) => 0x00,
        _ => 0xFF,
    }
}

// The bits of a mask that the group's lock, on or off, leaves.
pub fn under_lock(g: Group, locked: bool, i: u8, mask: u8) -> u8
    ensures { result ≡ under_lock g locked i mask }
{
    if locked { mask & left_open(g, i) } else { mask }
}

// The bits that a write can change while the group's lock is on or off.
#[tactic(auto, unfolding(crate::specs::WriteRule::writable_now))]
pub fn writable_now(g: Group, locked: bool, i: u8) -> u8
    ensures { result ≡ writable_now g locked i }
{
    under_lock(g, locked, i, writable(g, i))
}

// The byte that a register holds after `new` is written to it over `old`: the writable bits are those of
// `new`, the others stay.
#[tactic(auto, unfolding(crate::specs::WriteRule::written))]
pub fn write(old: u8, new: u8, mask: u8) -> u8
    ensures { result ≡ written old new mask }
{
    (old & !mask) | (new & mask)
}
