// A script file shown as text, a line a step. The definition is specs/Show; a step's line is the crate text_steps's. Reading a
// file and printing the text, or saying what is wrong with the file, is the program show's.
#![tactic(auto)]

ghost use Rattle.std.specs.Prelude.{◌≡◌, ◌*◌, ◌≤◌, length};
ghost use Rattle.script.specs.File.{checked};
ghost use Rattle.text_from_script.specs.Show.{LinesPut, shown, left_by, of_shown, shown_table};

use script::{Refusal, check_file};
use script_reader::nth;
use text_steps::add_step;

// The lines of the steps of an accepted file; how many bytes they have. A refusal goes straight out.
fn put_lines(file: &[u8], m: usize, out: &mut [u8]) -> Result<usize, Refusal>
    requires { (checked file.now ≡ Ok m) × (20 * m ≤ length out.old) }
    ensures { LinesPut file.now m out.old out.new result }
{
    let mut at = 0;
    for j in 0..m {
        let Some(step) = nth(file, j)? else {
            return Ok(at);
        };
        at = add_step(out, at, step);
    }
    Ok(at)
}

// A script file as text in `out`, which wants 20 bytes a step.
pub fn show(file: &[u8], out: &mut [u8]) -> Result<usize, Refusal>
    ensures value { result ≡ shown file.now (length out.old) }
    ensures out_after { out.new ≡ left_by result file.now out.old }
    ensures result_value { of_shown result ≡ shown_table file.now (length out.old) }
{
    let m = check_file(file)?;
    if out.len() / 20 < m {
        return Err(Refusal::Room);
    }
    put_lines(file, m, out)
}
