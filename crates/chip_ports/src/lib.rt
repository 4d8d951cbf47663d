// Where each of the 65,536 port numbers leads, in both directions. Document 01, "Ports", and document 02, P1, for
// the attribute registers.
// What an access then does is crate `chip`'s.
#![tactic(auto)]

ghost use Rattle.std.specs.Prelude.{◌≡◌};
ghost use Rattle.chip_ports.specs.Ports.{target};

use chip_registers::Group;

// What a port leads to. The last two lead to no part of the chip; they are no Option's None, since `target` has a case for each,
// with answers of their own.
#[derive(Clone, Copy)]
pub enum Target {
    // A group's index register.
    Index(Group),
    // The register that the group's index names; MSR and PALMASK have no index.
    Data(Group),
    // 3C7h: the palette's read index when written, PALSTATE when read.
    ReadIndex,
    // 3C8h: the palette's write index when written, the current index when read.
    WriteIndex,
    // 3C9h.
    Paldata,
    // 3C0h: the attribute index and the attribute data by turns when written, the index when read.
    Attribute,
    // 3BAh or 3DAh, read: input status 1, which returns the turn to the index. No write leads there.
    Status,
    // The CR pair or the status port that MSR bit 0 does not pick.
    NotPicked,
    // A port, or a direction of it, that the table does not have.
    NotListed,
}

// The target of a port: `picks3dx` is MSR bit 0, which picks the CR pair and the status port at 3Dx; `write` is the direction.
#[tactic(auto, unfolding(crate::specs::Ports::target, crate::specs::Ports::ports))]
pub fn leads_to(picks3dx: bool, write: bool, port: u16) -> Target
    ensures { result ≡ target picks3dx write port }
{
    match port {
        0x3B4 if !picks3dx => Target::Index(Group::Cr),
        0x3B5 if !picks3dx => Target::Data(Group::Cr),
        0x3BA if !write && !picks3dx => Target::Status,
        0x3C0 => Target::Attribute,
        0x3C1 if !write => Target::Data(Group::Ar),
        0x3C2 if write => Target::Data(Group::Msr),
        0x3C4 => Target::Index(Group::Sr),
        0x3C5 => Target::Data(Group::Sr),
        0x3C6 => Target::Data(Group::Palmask),
        0x3C7 => Target::ReadIndex,
        0x3C8 => Target::WriteIndex,
        0x3C9 => Target::Paldata,
        0x3CC if !write => Target::Data(Group::Msr),
        0x3CE => Target::Index(Group::Gr),
        0x3CF => Target::Data(Group::Gr),
        0x3D0 => Target::Index(Group::Fr),
        0x3D1 => Target::Data(Group::Fr),
        0x3D2 => Target::Index(Group::Mr),
        0x3D3 => Target::Data(Group::Mr),
        0x3D4 if picks3dx => Target::Index(Group::Cr),
        0x3D5 if picks3dx => Target::Data(Group::Cr),
        0x3D6 => Target::Index(Group::Xr),
        0x3D7 => Target::Data(Group::Xr),
        0x3DA if !write && picks3dx => Target::Status,
        0x3B4 | 0x3B5 | 0x3D4 | 0x3D5 => Target::NotPicked,
        0x3BA | 0x3DA if !write => Target::NotPicked,
        _ => Target::NotListed,
    }
}
