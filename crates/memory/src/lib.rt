// Video memory that the caller lends, one byte at a time: document 01, "Video memory and block transfers". A linear read and a
// linear write, over a memory of any length and at any place, each an equation with specs/Memory; a refusal changes no byte. The
// answers, with document 01's numbers, are those of block transfers too (crates `blit_frame` and `blit`).
#![tactic(auto)]

ghost use Rattle.std.specs.Prelude.{◌≡◌, length};
ghost use Rattle.memory.specs.Memory.{refusal_number, answer_number, read_number, read_value, length_allowed};
ghost use Rattle.memory.specs.Memory.{byte_read, byte_number, byte_value, write_answer, byte_written};

// Why nothing was done: document 01's numbers 3, 5 and 4.
#[derive(Clone, Copy)]
pub enum Refusal {
    Length,
    Range,
    Outside,
}

// Document 01's number of a refusal, and of an answer: functions by name, as the definitions that their clauses cite.
pub fn refusal_number(why: Refusal) -> u8
    ensures { result ≡ refusal_number why }
{
    match why {
        Refusal::Length => 3,
        Refusal::Range => 5,
        Refusal::Outside => 4,
    }
}

pub fn answer_number(a: Result<(), Refusal>) -> u8
    ensures { result ≡ answer_number a }
{
    match a {
        Ok(()) => 0,
        Err(why) => refusal_number(why),
    }
}

// Whether a memory may be so long: number 3 is for any other length.
pub fn length_allowed(n: usize) -> bool
    ensures { result ≡ length_allowed n }
{
    4096 <= n && n <= 2_097_152 && n % 4 == 0
}

// The byte at a place of the memory.
#[tactic(auto, unfolding(crate::specs::Memory::byte_read, crate::specs::Memory::byte_number, crate::specs::Memory::byte_value))]
pub fn read_byte(mem: &[u8], at: usize) -> Result<u8, Refusal>
    ensures value { result ≡ byte_read mem.now at }
    ensures result_value { read_number result ≡ byte_number (length mem.now) at }
    ensures result_value_2 { read_value result ≡ byte_value mem.now at }
{
    if !length_allowed(mem.len()) {
        return Err(Refusal::Length);
    }
    mem.get(at).copied().ok_or(Refusal::Outside)
}

// The byte at a place of the memory becomes v. The place is tested: what `get_mut` lends says nothing of the memory after it.
#[tactic(auto, unfolding(crate::specs::Memory::write_answer, crate::specs::Memory::byte_number, crate::specs::Memory::byte_written))]
pub fn write_byte(mem: &mut [u8], at: usize, v: u8) -> Result<(), Refusal>
    ensures value { result ≡ write_answer mem.old at }
    ensures result_value { answer_number result ≡ byte_number (length mem.old) at }
    ensures mem_after { mem.new ≡ byte_written mem.old at v }
{
    if !length_allowed(mem.len()) {
        return Err(Refusal::Length);
    }
    if at >= mem.len() {
        return Err(Refusal::Outside);
    }
    mem[at] = v;
    Ok(())
}
