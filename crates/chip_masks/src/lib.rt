// A table for speed. It has the writable bits of every register: the masks of crate `chip_registers`, whose matches
// on ranges of indexes are what document 01 asks for and what a reader looks up, once more. A port write of the
// library takes its mask from here, by one load where the ranges take several jumps. And it has where every register
// stands in the row of the listed ones (document 02, P7). Both are proved equal to what crate `chip_registers`
// defines, at every index of every group, so what has to be believed stays in one place.
// A group is named by its number here: a number that a caller writes out leaves of the match on it one small table,
// which the compiler makes part of the caller. An enum would go through memory, and one large table be called. The
// mask and the place come from one match: of two on one number the compiler makes a jump.
#![tactic(auto)]

ghost use Rattle.std.specs.Prelude.{◌≡◌, ◌-◌, ◌*◌, ◌/◌, ◌%◌, ◌^◌, ◌<◌};
ghost use Rattle.chip_registers.specs.Groups.{group_at, number_of, writable_of};
ghost use Rattle.chip_masks.specs.Table.{line_of, standing_of};

use chip_registers::Group;

// A line of the table: eight registers, a byte each, the first at the left. First their writable bits, then where
// they stand in the row: 80h plus how far a register is from its group's first, and 00h for an unlisted index.
#[derive(Clone, Copy)]
struct Line(u64, u64);

// What the table has of a register, as bytes of a line.
#[derive(Clone, Copy)]
pub struct Entry {
    // The bits that a write can change, a lock apart; none at an unlisted index.
    pub writable: u8,
    // Where it stands; 00h and not None at an unlisted index, so that an access does not branch on what is listed (speed).
    pub standing: u8,
}

// A line without a register.
const UNLISTED: Line = Line(0x00, 0x00);

// The CRT controller registers, chapter 9, each line with the index of its first. Lines without a register stand there like
// the others where an index can have all eight bits.
static CR: [Line; 32] = [
    Line(0xFF_FF_FF_7F_FF_FF_FF_FF, 0x80_81_82_83_84_85_86_87), // 00h
    Line(0x7F_FF_3F_7F_FF_FF_FF_FF, 0x88_89_8A_8B_8C_8D_8E_8F), // 08h
    Line(0xFF_BF_FF_FF_7F_FF_FF_EF, 0x90_91_92_93_94_95_96_97), // 10h
    Line(0xFF_00_00_00_00_00_00_00, 0x98_00_00_00_00_00_00_00), // 18h
    Line(0x00_00_00_00_00_00_00_00, 0x00_00_99_00_00_00_00_00), // 20h
    UNLISTED, // 28h
    Line(0x0F_0F_0F_0F_00_00_00_00, 0x9A_9B_9C_9D_00_00_00_00), // 30h
    Line(0x01_00_00_00_C0_00_00_00, 0x9E_00_00_00_9F_00_00_00), // 38h
    Line(0x8F_0F_00_00_00_00_00_00, 0xA0_A1_00_00_00_00_00_00), // 40h
    UNLISTED, // 48h
    UNLISTED, // 50h
    UNLISTED, // 58h
    UNLISTED, // 60h
    UNLISTED, // 68h
    Line(0xFF_FF_FF_FF_3F_FF_FF_FF, 0xA2_A3_A4_A5_A6_A7_A8_A9), // 70h
    Line(0x9F_FF_00_00_00_00_00_00, 0xAA_AB_00_00_00_00_00_00), // 78h
    UNLISTED, // 80h
    UNLISTED, // 88h
    UNLISTED, // 90h
    UNLISTED, // 98h
    UNLISTED, // A0h
    UNLISTED, // A8h
    UNLISTED, // B0h
    UNLISTED, // B8h
    UNLISTED, // C0h
    UNLISTED, // C8h
    UNLISTED, // D0h
    UNLISTED, // D8h
    UNLISTED, // E0h
    UNLISTED, // E8h
    UNLISTED, // F0h
    UNLISTED, // F8h
];

// The line of that table that an index is in.
fn cr(i: u8) -> Line
    ensures writable_bits { result.0 ≡ line_of (λ g j. writable_of g j) Group.Cr (i / 8) }
    ensures standing_bytes { result.1 ≡ line_of standing_of Group.Cr (i / 8) }
{
    CR[usize::from(i / 8)]
}

// The sequencer registers, chapter 10: a short index has few lines, as a match.
fn sr(i: u8) -> Line
    ensures writable_bits { result.0 ≡ line_of (λ g j. writable_of g j) Group.Sr (i / 8) }
    ensures standing_bytes { result.1 ≡ line_of standing_of Group.Sr (i / 8) }
{
    match i / 8 {
        0x00 => Line(0x03_3D_0F_3F_0E_00_00_FF, 0x80_81_82_83_84_00_00_85),
        _ => UNLISTED,
    }
}

// The graphics controller registers, chapter 11, likewise.
fn gr(i: u8) -> Line
    ensures writable_bits { result.0 ≡ line_of (λ g j. writable_of g j) Group.Gr (i / 8) }
    ensures standing_bytes { result.1 ≡ line_of standing_of Group.Gr (i / 8) }
{
    match i / 8 {
        0x00 => Line(0x0F_0F_0F_1F_03_7B_0F_0F, 0x80_81_82_83_84_85_86_87),
        0x01 => Line(0xFF_00_00_00_00_00_00_00, 0x88_00_00_00_00_00_00_00),
        _ => UNLISTED,
    }
}

// The extension registers, chapter 14.
static XR: [Line; 32] = [
    Line(0x00_00_00_00_00_00_00_00, 0x80_81_82_83_84_85_86_00), // 00h
    Line(0x00_03_37_0D_00_00_7F_00, 0x87_88_89_8A_00_00_8B_00), // 08h
    UNLISTED, // 10h
    UNLISTED, // 18h
    Line(0x3E_00_00_00_00_00_00_00, 0x8C_00_00_00_00_00_00_00), // 20h
    UNLISTED, // 28h
    UNLISTED, // 30h
    UNLISTED, // 38h
    Line(0xFF_FF_FF_FF_FF_FF_FF_FF, 0x8D_8E_8F_90_91_92_93_94), // 40h
    Line(0xFF_FF_FF_FF_FF_FF_FF_FF, 0x95_96_97_98_99_9A_9B_9C), // 48h
    UNLISTED, // 50h
    UNLISTED, // 58h
    Line(0x43_7F_9C_9F_00_00_00_02, 0x9D_9E_9F_A0_00_00_00_A1), // 60h
    UNLISTED, // 68h
    Line(0x00_00_00_00_00_00_00_00, 0xA2_A3_00_00_00_00_00_00), // 70h
    UNLISTED, // 78h
    Line(0xBF_1F_0F_00_00_00_00_00, 0xA4_A5_A6_00_00_00_00_00), // 80h
    UNLISTED, // 88h
    UNLISTED, // 90h
    UNLISTED, // 98h
    Line(0xFF_FF_FF_3F_FF_87_FF_87, 0xA7_A8_A9_AA_AB_AC_AD_AE), // A0h
    Line(0xFF_FF_FF_3F_FF_87_FF_87, 0xAF_B0_B1_B2_B3_B4_B5_B6), // A8h
    UNLISTED, // B0h
    UNLISTED, // B8h
    Line(0xFF_FF_00_74_FF_FF_00_74, 0xB7_B8_00_B9_BA_BB_00_BC), // C0h
    Line(0xFF_FF_00_74_FF_FF_F0_0E, 0xBD_BE_00_BF_C0_C1_C2_C3), // C8h
    Line(0x7F_01_00_00_00_00_00_00, 0xC4_C5_C6_00_00_00_00_00), // D0h
    UNLISTED, // D8h
    Line(0xFF_FF_FF_FF_FF_FF_FF_FF, 0xC7_C8_C9_CA_CB_CC_CD_CE), // E0h
    Line(0xFF_FF_FF_FF_00_00_00_00, 0xCF_D0_D1_D2_00_00_00_00), // E8h
    UNLISTED, // F0h
    Line(0xFF_FF_FF_FF_FF_00_00_00, 0xD3_D4_D5_D6_D7_00_00_00), // F8h
];

// The line of that table that an index is in.
fn xr(i: u8) -> Line
    ensures writable_bits { result.0 ≡ line_of (λ g j. writable_of g j) Group.Xr (i / 8) }
    ensures standing_bytes { result.1 ≡ line_of standing_of Group.Xr (i / 8) }
{
    XR[usize::from(i / 8)]
}

// The flat panel registers, chapter 15.
static FR: [Line; 32] = [
    Line(0x00_FF_00_1F_FF_BF_07_00, 0x80_81_00_82_83_84_85_00), // 00h
    Line(0xFF_00_6F_EF_FF_00_00_FF, 0x86_00_87_88_89_00_00_8A), // 08h
    Line(0xFF_FF_FF_FF_00_00_FF_FF, 0x8B_8C_8D_8E_00_00_8F_90), // 10h
    Line(0x02_FF_FF_00_00_00_FF_3F, 0x91_92_93_00_00_00_94_95), // 18h
    Line(0xFF_FF_FF_FF_FF_FF_FF_FF, 0x96_97_98_99_9A_9B_9C_9D), // 20h
    UNLISTED, // 28h
    Line(0xFF_FF_FF_FF_FF_FF_FF_F8, 0x9E_9F_A0_A1_A2_A3_A4_A5), // 30h
    UNLISTED, // 38h
    Line(0xFF_0F_00_00_00_00_00_00, 0xA6_A7_00_00_00_00_00_00), // 40h
    Line(0xFF_FF_FF_FF_FF_FF_FF_00, 0xA8_A9_AA_AB_AC_AD_AE_00), // 48h
    UNLISTED, // 50h
    UNLISTED, // 58h
    UNLISTED, // 60h
    UNLISTED, // 68h
    Line(0xFF_FF_FF_FF_FF_00_00_00, 0xAF_B0_B1_B2_B3_00_00_00), // 70h
    UNLISTED, // 78h
    UNLISTED, // 80h
    UNLISTED, // 88h
    UNLISTED, // 90h
    UNLISTED, // 98h
    UNLISTED, // A0h
    UNLISTED, // A8h
    UNLISTED, // B0h
    UNLISTED, // B8h
    UNLISTED, // C0h
    UNLISTED, // C8h
    UNLISTED, // D0h
    UNLISTED, // D8h
    UNLISTED, // E0h
    UNLISTED, // E8h
    UNLISTED, // F0h
    UNLISTED, // F8h
];

// The line of that table that an index is in.
fn fr(i: u8) -> Line
    ensures writable_bits { result.0 ≡ line_of (λ g j. writable_of g j) Group.Fr (i / 8) }
    ensures standing_bytes { result.1 ≡ line_of standing_of Group.Fr (i / 8) }
{
    FR[usize::from(i / 8)]
}

// The multimedia registers, chapter 16.
static MR: [Line; 32] = [
    Line(0x00_00_FD_FF_FF_F0_F8_FF, 0x80_81_82_83_84_85_86_87), // 00h
    Line(0x3F_F8_FF_3F_FF_00_FF_07, 0x88_89_8A_8B_8C_00_8D_8E), // 08h
    Line(0xFF_07_FF_07_FF_07_FF_FF, 0x8F_90_91_92_93_94_95_96), // 10h
    Line(0xFF_00_00_00_00_00_1F_EB, 0x97_00_00_00_00_00_98_99), // 18h
    Line(0xFC_00_F8_FF_3F_F8_FF_3F, 0x9A_9B_9C_9D_9E_9F_A0_A1), // 20h
    Line(0xFF_00_FF_07_FF_07_FF_07, 0xA2_00_A3_A4_A5_A6_A7_A8), // 28h
    Line(0xFF_07_FC_FC_FF_00_00_00, 0xA9_AA_AB_AC_AD_00_00_00), // 30h
    Line(0x00_00_00_00_E7_FF_FF_FF, 0x00_00_00_00_AE_AF_B0_B1), // 38h
    Line(0xFF_FF_FF_00_00_00_00_00, 0xB2_B3_B4_B5_B6_00_00_00), // 40h
    UNLISTED, // 48h
    UNLISTED, // 50h
    UNLISTED, // 58h
    UNLISTED, // 60h
    UNLISTED, // 68h
    UNLISTED, // 70h
    UNLISTED, // 78h
    UNLISTED, // 80h
    UNLISTED, // 88h
    UNLISTED, // 90h
    UNLISTED, // 98h
    UNLISTED, // A0h
    UNLISTED, // A8h
    UNLISTED, // B0h
    UNLISTED, // B8h
    UNLISTED, // C0h
    UNLISTED, // C8h
    UNLISTED, // D0h
    UNLISTED, // D8h
    UNLISTED, // E0h
    UNLISTED, // E8h
    UNLISTED, // F0h
    UNLISTED, // F8h
];

// The line of that table that an index is in.
fn mr(i: u8) -> Line
    ensures writable_bits { result.0 ≡ line_of (λ g j. writable_of g j) Group.Mr (i / 8) }
    ensures standing_bytes { result.1 ≡ line_of standing_of Group.Mr (i / 8) }
{
    MR[usize::from(i / 8)]
}

// The attribute controller registers, chapter 12, likewise.
fn ar(i: u8) -> Line
    ensures writable_bits { result.0 ≡ line_of (λ g j. writable_of g j) Group.Ar (i / 8) }
    ensures standing_bytes { result.1 ≡ line_of standing_of Group.Ar (i / 8) }
{
    match i / 8 {
        0x00 => Line(0x3F_3F_3F_3F_3F_3F_3F_3F, 0x80_81_82_83_84_85_86_87),
        0x01 => Line(0x3F_3F_3F_3F_3F_3F_3F_3F, 0x88_89_8A_8B_8C_8D_8E_8F),
        0x02 => Line(0xEF_FF_3F_0F_0F_00_00_00, 0x90_91_92_93_94_00_00_00),
        0x03 => UNLISTED,
        _ => UNLISTED,
    }
}

// The byte of eight that an index names.
fn byte_of(eight: u64, i: u8) -> u8
    ensures { result ≡ eight / 2 ^ (8 * (7 - i % 8)) % 256 }
{
    ((eight >> (8 * (7 - i % 8))) % 256) as u8
}

// The entry of a line that an index names.
fn entry_of(line: Line, i: u8) -> Entry
    ensures writable_value { result.writable ≡ line.0 / 2 ^ (8 * (7 - i % 8)) % 256 }
    ensures standing_value { result.standing ≡ line.1 / 2 ^ (8 * (7 - i % 8)) % 256 }
{
    Entry {
        writable: byte_of(line.0, i),
        standing: byte_of(line.1, i),
    }
}

// The entry of a register, by the number of its group and its index.
#[tactic(auto, using(crate::proofs::LineLaws::in_lines), unfolding(chip_registers::specs::Groups::group_at))]
pub fn entry_at(n: u8, i: u8) -> Entry
    ensures writable_value { result.writable ≡ writable_of (group_at n) i }
    ensures standing_value { result.standing ≡ standing_of (group_at n) i }
{
    match n {
        0 => entry_of(cr(i), i),
        1 => entry_of(sr(i), i),
        2 => entry_of(gr(i), i),
        3 => entry_of(xr(i), i),
        4 => entry_of(fr(i), i),
        5 => entry_of(mr(i), i),
        6 => Entry {
            writable: 0xEF,
            standing: 0x80,
        },
        7 => Entry {
            writable: 0xFF,
            standing: 0x80,
        },
        _ => entry_of(ar(i), i),
    }
}

// The number of a group.
fn number_of(g: Group) -> u8
    ensures { result ≡ number_of g }
{
    g as u8
}

// The bits that a write can change, by group. As `chip_registers::writable`.
pub fn writable(g: Group, i: u8) -> u8
    ensures { result ≡ writable_of g i }
{
    entry_at(number_of(g), i).writable
}

// Where a register stands, by group.
pub fn standing(g: Group, i: u8) -> u8
    ensures { result ≡ standing_of g i }
{
    entry_at(number_of(g), i).standing
}
