// The reader that stands over the caller's script bytes: a thin struct of the slice and the position
// (document 01, Scripts; Forms we want to see). Each function takes the struct apart, or makes it, around
// `next_at` of the crate script; `nth` has plain parameters. What the reader answers is `next_of` of that crate's
// specs/Reader, and its number `next_table` of specs/Numbers.
#![tactic(auto)]

ghost use Rattle.std.specs.Prelude.{◌≡◌};
ghost use Rattle.script.specs.Reader.{next_of};
ghost use Rattle.script.specs.Numbers.{of_next, next_table};

use script::{Refusal, next_at};
use script_steps::Step;

// The caller's bytes, and the number of the step that the reader stands at.
#[derive(Clone, Copy)]
pub struct Reader<'a> {
    pub src: &'a [u8],
    pub at: usize,
}

// A reader over these bytes, at this step. This and the next two are functions and no methods: so they are promised by name.
pub fn over<'a>(src: &'a [u8], at: usize) -> Reader<'a>
    ensures { (result.src ≡ src.entry) × (result.at ≡ at) }
{
    Reader { src, at }
}

// What it answers: the step, the refusal, or after the last step the end.
pub fn ask<'a>(r: Reader<'a>) -> Result<Option<Step>, Refusal>
    ensures { (result ≡ next_of r.entry.src.now r.entry.at) × (of_next result ≡ next_table r.entry.src.now r.entry.at) }
{
    next_at(r.src, r.at)
}

// The same bytes, at another step.
pub fn moved<'a>(r: Reader<'a>, at: usize) -> Reader<'a>
    ensures { (result.src ≡ r.entry.src) × (result.at ≡ at) }
{
    Reader { src: r.src, at }
}

// With plain parameters: what a reader over these bytes answers at step j.
pub fn nth(file: &[u8], j: usize) -> Result<Option<Step>, Refusal>
    ensures { (result ≡ next_of file.now j) × (of_next result ≡ next_table file.now j) }
{
    ask(over(file, j))
}
