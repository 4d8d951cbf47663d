// Cases of document 02's requests: the table is specs/Asked; in code what the program `setups` asks of the writer.
#![tactic(auto)]

ghost use Rattle.std.specs.Prelude.{◌≡◌};
ghost use Rattle.script_writer.specs.Write.{written, of_written};

// What the writer answers for steps, with room for a block: the number, and the value.
pub fn written_number(steps: &[u8]) -> u8
    ensures { result ≡ (of_written (written steps.now 512)).number }
{
    let mut file = [0u8; 512];
    match script_writer::write(steps, &mut file) {
        Ok(_) => 0,
        Err(why) => why.number(),
    }
}

pub fn written_value(steps: &[u8]) -> usize
    ensures { result ≡ (of_written (written steps.now 512)).value }
{
    let mut file = [0u8; 512];
    match script_writer::write(steps, &mut file) {
        Ok(n) => n,
        Err(why) => why.value(),
    }
}
