// The chip on bytes that a caller lends: any 1,057 bytes are a state (specs/Layout says which byte is what), and every
// access works on them in place. Document 01, "Ports" (the state) and "Registers" and "Palette"; document 02, P1, for
// the attribute registers, P6: what a write did to the register, and P7: the listed registers stand in one row, and an
// unlisted index has no byte. Here are the registers by name, then the palette, then port 3C0h. The other indexes and
// the port accesses are in access.rt; registers and colours as a host asks for them are crate `lent_names`'s.
// Functions take a state as an array of its length; `write_word` and `read_word` take bytes of any length, and refuse
// all but a state's. Crate `chip` has the same accesses on a chip by value, document 01's form; there is no trait over both: a
// state in place is for C, and its places and packed answers are what makes it fast.
#![tactic(auto)]

ghost use Rattle.std.specs.Prelude.{◌≡◌, ◌+◌, ◌*◌, ◌/◌, ◌%◌, ◌⊎◌, ◌<◌, not, if◌then◌else◌, nat_eq};
ghost use Rattle.chip_registers.specs.Groups.{group_at};
ghost use Rattle.chip_registers.specs.WriteRule.{under_lock};
ghost use Rattle.chip.specs.State.{named, join, with_named, with_indexes, with_loading, with_turn, index_of};
ghost use Rattle.chip.specs.Names.{register, locked as lockedOf, received, ports_open, picks3_dx, eight_bit};
ghost use Rattle.chip.specs.Palette.{coloured, aimed, held, moved, loaded, palstate as palstateOf, paldata as paldataOf};
ghost use Rattle.chip.specs.Attribute.{attribute_index, attribute_aimed, attribute_set};
ghost use Rattle.chip.specs.Access.{told as told_by, attribute_wrote, write_to};
ghost use Rattle.chip.specs.Differ.{same_stored};
ghost use Rattle.chip_ports.specs.declared.Target.TheVariants.{Paldata};
ghost use Rattle.chip_masks.specs.Table.{standing_of};
ghost use Rattle.lent_chip.specs.Layout.{whole, PALETTE, view, spare, base_of, place_of, third_of, Holds};
ghost use Rattle.lent_chip.specs.Accesses.{WroteIn};

use access::STATE;
use chip::Rgb;
use chip::palette::by_mode;
use chip_masks::entry_at;
use chip_registers::{Group, index_kept, locked_by, under_lock, write};

pub mod access;

// Where a state's single bytes are.
const MSR: usize = 0;

const PALMASK: usize = 1;

const CR_INDEX: usize = 2;

const SR_INDEX: usize = 3;

const GR_INDEX: usize = 4;

const XR_INDEX: usize = 5;

const FR_INDEX: usize = 6;

const MR_INDEX: usize = 7;

const AR_INDEX: usize = 8;

const INDEX: usize = 9;

const POSITION: usize = 10;

const RED: usize = 11;

const GREEN: usize = 12;

const FLAGS: usize = 13;

// The flags, by the weight of their bits: bit 0 says that the read index was written last, bit 1 that data comes next at
// 3C0h, bit 2 that there is a picture.
const READING: u8 = 1;

const TURN: u8 = 2;

const PICTURE: u8 = 4;

// Where the palette starts, three bytes an entry, and where the row does.
pub const PALETTE: usize = 14;

const ROW: usize = 782;

// A write that is done and tells of no register: FFh twice; and the same where a colour differs after it (specs/Accesses
// says what each bit is).
const UNTOLD: u64 = 0x0000FFFF;

const COLOUR_DIFFERS: u64 = 0x10000FFFF;

// The numbers of the groups. A group is named by its number where its place and its writable bits are looked up:
// crate `chip_masks` says why.
const CR_GROUP: u8 = 0;

const SR_GROUP: u8 = 1;

const GR_GROUP: u8 = 2;

pub const XR_GROUP: u8 = 3;

const FR_GROUP: u8 = 4;

const MR_GROUP: u8 = 5;

const MSR_GROUP: u8 = 6;

pub const PALMASK_GROUP: u8 = 7;

const AR_GROUP: u8 = 8;

// Where the bytes of a group's registers start: MSR and PALMASK are one byte each, and in the row a group stands
// behind those before it.
fn base(n: u8) -> usize
    ensures { (result ≡ base_of (group_at n)) × (result < whole) }
{
    match n {
        0 => ROW,
        1 => ROW + 44,
        2 => ROW + 50,
        3 => ROW + 59,
        4 => ROW + 147,
        5 => ROW + 199,
        6 => MSR,
        7 => PALMASK,
        _ => ROW + 254,
    }
}

// Where a register's byte is, from where it stands. An unlisted index stands nowhere: it leads to the group's first
// byte, which it neither shows nor changes, so that no access has to branch.
fn place_from(n: u8, i: u8, standing: u8) -> usize
    requires { standing ≡ standing_of (group_at n) i }
    ensures { (result ≡ place_of (group_at n) i) × (result < whole) }
{
    base(n) + (standing % 128) as usize
}

// The same, looked up.
pub fn place(n: u8, i: u8) -> usize
    ensures { (result ≡ place_of (group_at n) i) × (result < whole) }
{
    let e = entry_at(n, i);
    place_from(n, i, e.standing)
}

// The byte at a register's place, as it shows: 00h at an unlisted index.
fn shown_by(standing: u8, b: u8) -> u8
    ensures { result ≡ (if nat_eq (standing / 128 % 2) 1 then b else 0) }
{
    if standing / 128 % 2 == 1 { b } else { 0x00 }
}

// The byte of a register, by the number of its group and its index.
pub fn get_at(state: &[u8; STATE], n: u8, i: u8) -> u8
    ensures { result ≡ register (group_at n) (named (view state.now)) i }
{
    let e = entry_at(n, i);
    let at = place_from(n, i, e.standing);
    shown_by(e.standing, state[at])
}

// The byte of a register, by name. Each arm has its group's number as a constant, of which the compiler leaves one arm of
// `entry_at`'s match; handed on as a variable the number would be matched again.
#[tactic(auto, unfolding(chip_registers::specs::Groups::group_at))]
fn get(state: &[u8; STATE], g: Group, i: u8) -> u8
    ensures { result ≡ register g (named (view state.now)) i }
{
    match g {
        Group::Cr => get_at(state, CR_GROUP, i),
        Group::Sr => get_at(state, SR_GROUP, i),
        Group::Gr => get_at(state, GR_GROUP, i),
        Group::Xr => get_at(state, XR_GROUP, i),
        Group::Fr => get_at(state, FR_GROUP, i),
        Group::Mr => get_at(state, MR_GROUP, i),
        Group::Msr => get_at(state, MSR_GROUP, i),
        Group::Palmask => get_at(state, PALMASK_GROUP, i),
        Group::Ar => get_at(state, AR_GROUP, i),
    }
}

// Whether a group's registers are under a lock.
#[tactic(auto, using(crate::proofs::Holding::picture_bit), unfolding(chip::specs::Names::locked, chip_registers::specs::Groups::group_at))]
fn locked(state: &[u8; STATE], g: Group) -> bool
    ensures { result ≡ lockedOf g (named (view state.now)) }
{
    locked_by(
        g,
        get_at(state, CR_GROUP, 0x11),
        state[FLAGS] / PICTURE % 2 == 1,
    )
}

// A register's byte before a write and after it, as the write's word; 00h twice at an unlisted index. The choice is made
// once, of the word.
fn told(standing: u8, old: u8, new: u8) -> u64
    ensures { result ≡ 256 * (if nat_eq (standing / 128 % 2) 1 then old else 0) + (if nat_eq (standing / 128 % 2) 1 then new else 0) }
{
    let w = 256 * (old as u64) + (new as u64);
    if standing / 128 % 2 == 1 { w } else { 0 }
}

// A register receives a byte, by the number of its group and its index; `left` is what its lock leaves open.
fn put_at(state: &mut [u8; STATE], n: u8, i: u8, v: u8, left: u8) -> u64
    requires { left ≡ under_lock (group_at n) (lockedOf (group_at n) (named (view state.old))) i 0xFF }
    ensures { WroteIn state.old (told_by (group_at n) i (view state.old) (with_named (view state.old) (received (group_at n) (named (view state.old)) i v))) state.new result }
{
    let e = entry_at(n, i);
    let at = place_from(n, i, e.standing);
    let mask = e.writable & left;
    let old = state[at];
    let new = write(old, v, mask);
    state[at] = new;
    told(e.standing, old, new)
}

// A register receives a byte, by name, each group's number a constant as in `get`.
#[tactic(auto, unfolding(chip_registers::specs::Groups::group_at))]
fn put(state: &mut [u8; STATE], g: Group, i: u8, v: u8) -> u64
    ensures { WroteIn state.old (told_by g i (view state.old) (with_named (view state.old) (received g (named (view state.old)) i v))) state.new result }
{
    let left = under_lock(g, locked(state, g), i, 0xFF);
    match g {
        Group::Cr => put_at(state, CR_GROUP, i, v, left),
        Group::Sr => put_at(state, SR_GROUP, i, v, left),
        Group::Gr => put_at(state, GR_GROUP, i, v, left),
        Group::Xr => put_at(state, XR_GROUP, i, v, left),
        Group::Fr => put_at(state, FR_GROUP, i, v, left),
        Group::Mr => put_at(state, MR_GROUP, i, v, left),
        Group::Msr => put_at(state, MSR_GROUP, i, v, left),
        Group::Palmask => put_at(state, PALMASK_GROUP, i, v, left),
        Group::Ar => put_at(state, AR_GROUP, i, v, left),
    }
}

// Whether the ports answer: pin CFG1.
#[tactic(auto, unfolding(chip::specs::Names::ports_open, chip_registers::specs::Groups::group_at))]
fn is_open(state: &[u8; STATE]) -> bool
    ensures { result ≡ ports_open (named (view state.now)) }
{
    get_at(state, XR_GROUP, 0x70) / 2 % 2 == 1
}

// Whether MSR bit 0 picks the CR pair at 3D4h and 3D5h.
#[tactic(auto, unfolding(chip::specs::Names::picks3_dx, chip_registers::specs::Groups::group_at))]
fn picks_3dx(state: &[u8; STATE]) -> bool
    ensures { result ≡ picks3_dx (named (view state.now)) }
{
    get_at(state, MSR_GROUP, 0x00) % 2 == 1
}

// Whether the palette is in eight-bit mode: XR80 bit 7.
#[tactic(auto, unfolding(chip::specs::Names::eight_bit, chip_registers::specs::Groups::group_at))]
pub fn is_eight_bit(state: &[u8; STATE]) -> bool
    ensures { result ≡ eight_bit (named (view state.now)) }
{
    get_at(state, XR_GROUP, 0x80) / 128 % 2 == 1
}

// The flags with one of them replaced.
fn with_flag(b: u8, flag: u8, bit: bool) -> u8
    requires { (flag ≡ READING) ⊎ (flag ≡ TURN) ⊎ (flag ≡ PICTURE) }
    ensures { result ≡ b / (2 * flag) * (2 * flag) + b % flag + flag * (if bit then 1 else 0) }
{
    let others = b / (2 * flag) * (2 * flag) + b % flag;
    if bit { others + flag } else { others }
}

// Which byte of an entry a position is at.
fn third(position: u8) -> usize
    ensures { (result ≡ third_of position) × (result < 3) }
{
    match position {
        2 => 2,
        1 => 1,
        _ => 0,
    }
}

// Where a component of an entry is.
fn colour_place(e: u8, position: u8) -> usize
    ensures { (result ≡ PALETTE + 3 * e + third_of position) × (result < whole) }
{
    PALETTE + 3 * (e as usize) + third(position)
}

// Either index is written.
fn aim(state: &mut [u8; STATE], v: u8, reading: bool)
    ensures { Holds state.new (with_loading (view state.old) (aimed (view state.old).loading v reading)) (spare state.old) }
{
    state[INDEX] = v;
    state[POSITION] = 0;
    let old = state[FLAGS];
    state[FLAGS] = with_flag(old, READING, reading);
}

// The position moves on, and after blue the index.
fn move_on(state: &mut [u8; STATE])
    ensures { Holds state.new (with_loading (view state.old) (moved (view state.old).loading)) (spare state.old) }
{
    let p = state[POSITION];
    if p == 2 {
        state[INDEX] = state[INDEX].wrapping_add(1);
        state[POSITION] = 0;
    } else if p == 1 {
        state[POSITION] = 2;
    } else {
        state[POSITION] = 1;
    }
}

// A colour is stored at an entry, by the mode of this moment; whether the entry has another then. The bytes are compared where
// they stand: an `Rgb` made of them for `==` says no more.
fn put_colour(state: &mut [u8; STATE], e: u8, colour: Rgb) -> bool
    ensures holds { Holds state.new (with_named (view state.old) (coloured (named (view state.old)) e colour.red colour.green colour.blue)) (spare state.old) }
    ensures value { result ≡ not (same_stored (named (view state.old)) (coloured (named (view state.old)) e colour.red colour.green colour.blue)) }
{
    let eight = is_eight_bit(state);
    let at = PALETTE + 3 * (e as usize);
    let r = by_mode(eight, colour.red);
    let g = by_mode(eight, colour.green);
    let b = by_mode(eight, colour.blue);
    let same = (state[at] == r) & (state[at + 1] == g) & (state[at + 2] == b);
    state[at] = r;
    state[at + 1] = g;
    state[at + 2] = b;
    !same
}

// A byte comes to PALDATA: held at red and green, and at blue the entry is stored; whether it has another colour then.
fn hold(state: &mut [u8; STATE], v: u8) -> bool
    ensures holds { Holds state.new (join (loaded (named (view state.old)) (view state.old).loading v) (view state.old).indexes (held (view state.old).loading v)) (spare state.old) }
    ensures value { result ≡ not (same_stored (named (view state.old)) (loaded (named (view state.old)) (view state.old).loading v)) }
{
    let p = state[POSITION];
    if p == 2 {
        let e = state[INDEX];
        let colour = Rgb {
            red: state[RED],
            green: state[GREEN],
            blue: v,
        };
        return put_colour(state, e, colour);
    }
    if p == 1 {
        state[GREEN] = v;
        return false;
    }
    state[RED] = v;
    false
}

// A byte is written to PALDATA: it tells of no register, and may change the entry at the index.
fn load(state: &mut [u8; STATE], v: u8) -> u64
    ensures { WroteIn state.old (write_to Paldata (view state.old) v) state.new result }
{
    let changed = hold(state, v);
    move_on(state);
    if changed { COLOUR_DIFFERS } else { UNTOLD }
}

// What PALSTATE reads.
fn palstate(state: &[u8; STATE]) -> u8
    ensures { result ≡ palstateOf (view state.now).loading }
{
    if state[FLAGS] / READING % 2 == 1 {
        0x03
    } else {
        0x00
    }
}

// What PALDATA reads: the component at the position, by the mode of this moment.
fn paldata(state: &[u8; STATE]) -> u8
    ensures { result ≡ paldataOf (named (view state.now)) (view state.now).loading }
{
    let eight = is_eight_bit(state);
    let at = colour_place(state[INDEX], state[POSITION]);
    by_mode(eight, state[at])
}

// The attribute index as 3C0h reads it: the low five bits, and bit 5, the picture.
fn attribute_index(state: &[u8; STATE]) -> u8
    ensures { result ≡ attribute_index (view state.now) }
{
    let low = index_kept(Group::Ar, state[AR_INDEX]);
    if state[FLAGS] / PICTURE % 2 == 1 {
        low + 0x20
    } else {
        low
    }
}

// The turn of 3C0h is set: at data, or at the index.
fn set_turn(state: &mut [u8; STATE], turn: bool)
    ensures { Holds state.new (with_indexes (view state.old) (with_turn (view state.old).indexes turn)) (spare state.old) }
{
    let old = state[FLAGS];
    state[FLAGS] = with_flag(old, TURN, turn);
}

// The attribute index is written: data comes next.
fn aim_attribute(state: &mut [u8; STATE], v: u8)
    ensures { Holds state.new (attribute_aimed (view state.old) v) (spare state.old) }
{
    state[AR_INDEX] = index_kept(Group::Ar, v);
    let old = state[FLAGS];
    state[FLAGS] = with_flag(old, PICTURE, v / 32 % 2 == 1);
    set_turn(state, true);
}

// The register at the attribute index receives a byte: an index comes next.
fn set_attribute(state: &mut [u8; STATE], v: u8) -> u64
    ensures { WroteIn state.old (told_by Group.Ar (index_of Group.Ar (view state.old).indexes) (view state.old) (attribute_set (view state.old) v)) state.new result }
{
    let i = index_kept(Group::Ar, state[AR_INDEX]);
    let left = under_lock(Group::Ar, locked(state, Group::Ar), i, 0xFF);
    let word = put_at(state, AR_GROUP, i, v, left);
    set_turn(state, false);
    word
}

// A byte is written to 3C0h: to the register at the index, or of the index, which tells of no register.
fn write_attribute(state: &mut [u8; STATE], v: u8) -> u64
    ensures { WroteIn state.old (attribute_wrote (view state.old) v) state.new result }
{
    if state[FLAGS] / TURN % 2 == 1 {
        return set_attribute(state, v);
    }
    aim_attribute(state, v);
    UNTOLD
}
