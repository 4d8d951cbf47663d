// The sheet that a volunteer lays beside the databook: every listed register, a line each in the order of
// groups and indexes, with its writable bits and the byte that it reads after a reset with both pin bytes
// FFh, as `CR 07 FF 00`; MSR and PALMASK, which have no index, stand where their numbers are. All of it comes
// from `chip_registers` and `chip`.
#![tactic(auto)]

use chip::Chip;
use chip_registers::{Group, Row, row_of, writable};
use std::fmt::InlineText;
use std::io::Write;

// A part of a line, in one write: `write!` to the output itself makes a write of each name, number and space.
fn print<W: Write>(out: &mut W, part: InlineText<16>) {
    let _ = out.write_all(part.as_str().as_bytes());
}

// The part of a line behind the name: writable bits and byte.
fn print_row<W: Write>(out: &mut W, mask: u8, byte: u8) {
    print(
        out,
        InlineText::of(format_args!(" {mask:02X} {byte:02X}\n")),
    );
}

// The registers of a group, those that are listed.
fn print_group<W: Write>(out: &mut W, chip: Chip, name: &str, g: Group) {
    for i in 0..=255 {
        if let Some(Row(mask, _)) = row_of(g, i) {
            print(out, InlineText::of(format_args!("{name} {i:02X}")));
            print_row(out, mask, chip.get(g, i));
        }
    }
}

// A group of one register, which has no index.
fn print_lone<W: Write>(out: &mut W, chip: Chip, name: &str, g: Group) {
    print(out, InlineText::of(format_args!("{name} --")));
    print_row(out, writable(g, 0x00), chip.get(g, 0x00));
}

// All of the sheet.
fn print_sheet<W: Write>(out: &mut W, chip: Chip) {
    print_group(out, chip, "CR", Group::Cr);
    print_group(out, chip, "SR", Group::Sr);
    print_group(out, chip, "GR", Group::Gr);
    print_group(out, chip, "XR", Group::Xr);
    print_group(out, chip, "FR", Group::Fr);
    print_group(out, chip, "MR", Group::Mr);
    print_lone(out, chip, "MSR", Group::Msr);
    print_lone(out, chip, "PALMASK", Group::Palmask);
    print_group(out, chip, "AR", Group::Ar);
}

fn main(rt: HostRuntime) {
    print_sheet(&mut rt.stdout(), Chip::new(0xFF, 0xFF));
}
