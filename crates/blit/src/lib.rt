// Block transfers: document 01, "Video memory and block transfers"; databook, chapter 17 and appendix E. A transfer over a lent
// memory of any length, with numbers of any value: an equation with crate blit_frame's specs/Frame and with specs/Transfer; a
// refusal changes no byte. Whether it is done is judged by blit_frame, its lines are done in `lines`.
#![tactic(auto)]

ghost use Rattle.std.specs.Prelude.{◌≡◌, length};
ghost use Rattle.memory.specs.Memory.{answer_number};
ghost use Rattle.blit_frame.specs.Frame.{judged, judged_number};
ghost use Rattle.blit.specs.Transfer.{transferred};

use blit_frame::Transfer;
use memory::Refusal;

mod line;
mod lines;

// A block transfer.
pub fn block_transfer(mem: &mut [u8], t: Transfer) -> Result<(), Refusal>
    ensures value { result ≡ judged (length mem.old) t }
    ensures result_value { answer_number result ≡ judged_number (length mem.old) t }
    ensures mem_after { mem.new ≡ transferred mem.old t }
{
    blit_frame::judge(mem.len(), t)?;
    lines::run(mem, t);
    Ok(())
}
