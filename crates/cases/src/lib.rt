// Set-ups to try: what a case of a table can say (specs/Cases), document 01's starred ones (specs/Starred), the
// witnesses of must-fail edits (specs/Witnesses), and in code what the program
// `setups` asks of a chip. The cases of document 02's requests are crate `cases_requests`.
#![tactic(auto)]

ghost use Rattle.std.specs.Prelude.{◌≡◌};
ghost use Rattle.chip.specs.Access.{answer_number, port_written, port_read};
ghost use Rattle.chip.specs.Differ.{differ};
ghost use Rattle.chip.specs.View.{view};

use chip::Chip;

// A chip after a write to a port, and the number of the write.
pub fn after_write(c: Chip, port: u16, v: u8) -> Chip
    ensures { view result ≡ (port_written (view c) port v).chip }
{
    c.write(port, v).chip
}

pub fn write_number(c: Chip, port: u16, v: u8) -> u8
    ensures { result ≡ answer_number (port_written (view c) port v).answer }
{
    chip::access::number(c.write(port, v).answer)
}

// The register's byte before a write to a port and after it, and whether the write changes a register or a colour.
pub fn byte_before(c: Chip, port: u16, v: u8) -> u8
    ensures { result ≡ (port_written (view c) port v).before }
{
    c.write(port, v).before
}

pub fn byte_after(c: Chip, port: u16, v: u8) -> u8
    ensures { result ≡ (port_written (view c) port v).after }
{
    c.write(port, v).after
}

pub fn alters(c: Chip, port: u16, v: u8) -> bool
    ensures { result ≡ differ (view c) (port_written (view c) port v).chip }
{
    c.write(port, v).changed
}

// A chip after a read of a port, the byte that the read gives, and its number.
pub fn after_read(c: Chip, port: u16) -> Chip
    ensures { view result ≡ (port_read (view c) port).chip }
{
    c.read(port).chip
}

pub fn byte_read(c: Chip, port: u16) -> u8
    ensures { result ≡ (port_read (view c) port).value }
{
    c.read(port).value
}

pub fn read_number(c: Chip, port: u16) -> u8
    ensures { result ≡ answer_number (port_read (view c) port).answer }
{
    chip::access::number(c.read(port).answer)
}
