// When a block transfer is done, and where its lines lie: document 01, "Video memory and block transfers" and "Numbers
// returned", 3, 5 and 4; databook, chapter 17. Whether it is done depends on the memory's length alone, so `judge` takes no
// memory. Numbers of any value are taken. The transfer itself is crate `blit`'s. An area lies in memory where its two outermost
// bytes do. Of the pattern only the bytes that are addressed count: where its 64 bytes may run past the end, each line's first
// eight bytes are looked at, since its pattern repeats after eight.
#![tactic(auto)]

ghost use Rattle.std.specs.Prelude.{◌≡◌, cond, true, false, not, ◌||◌, ℕ, ◌+◌, ◌-◌, ◌*◌, ◌%◌, ◌^◌, ◌<◌, ◌≤◌, ltb};
ghost use Rattle.blit_raster.specs.Raster.{uses_source};
ghost use Rattle.memory.specs.Memory.{answer_number};
ghost use Rattle.blit_frame.specs.Frame.{in_range, is_in_memory, every_byte, within, pattern_place, judged, judged_number};
ghost use Rattle.blit_frame.specs.Lines.{Ranges, Missing, moved, low_of, pattern_low};

use memory::{Refusal, length_allowed};

// Where a transfer's destination or source begins, and how far its lines are apart.
#[derive(Clone, Copy)]
pub struct Area {
    pub address: usize,
    pub span: usize,
}

// A transfer's numbers. Any value is accepted, and refused where document 01 says so.
#[derive(Clone, Copy)]
pub struct Transfer {
    pub destination: Area,
    pub source: Area,
    pub width: usize,
    pub height: usize,
    pub code: u8,
    pub leftward: bool,
    pub upward: bool,
    pub pattern_address: usize,
    pub pattern_row: usize,
}

// ---- Small arithmetic.

// The lesser of two; public, and its clause is what callers use.
pub fn least(a: usize, b: usize) -> usize
    ensures { (result ≤ a) × (result ≤ b) × ((x : ℕ) → x < a → x < b → x < result) }
{
    a.min(b)
}

// The low 32 bits: all of a number of an accepted transfer.
fn fold(x: usize) -> usize
    ensures { (result ≡ x % 2 ^ 32) × (result < 2 ^ 32) }
{
    x % 4_294_967_296
}

// An address moved back, to 0 at the least, or ahead.
fn move_by(back: bool, a: usize, x: usize) -> usize
    requires { a + x < 2 ^ 64 }
    ensures { result ≡ moved back a x }
{
    if back { a.saturating_sub(x) } else { a + x }
}

// ---- Where a line lies.

// The lowest address of line r of an area.
pub fn line_low(t: Transfer, a: Area, r: usize) -> usize
    ensures { result ≡ low_of t.leftward t.upward (a.address % 2 ^ 32) (a.span % 2 ^ 32) (t.width % 2 ^ 32) (r % 2 ^ 32) }
{
    let down = fold(r) * fold(a.span);
    let first = move_by(t.upward, fold(a.address), down);
    if t.leftward {
        first.saturating_sub(fold(t.width).saturating_sub(1))
    } else {
        first
    }
}

// The first of the pattern's eight bytes for line r.
pub fn pattern_line(t: Transfer, r: usize) -> usize
    ensures { result ≡ pattern_low t.upward (t.pattern_address % 2 ^ 32) t.pattern_row r }
{
    let rows = if t.upward { 7 * (r % 8) } else { r % 8 };
    fold(t.pattern_address) + 8 * ((t.pattern_row % 8 + rows) % 8)
}

// ---- Whether a transfer is done.

// Number 5 is for a transfer that is not.
#[tactic(auto, unfolding(crate::specs::Frame::in_range))]
fn in_range(t: Transfer) -> bool
    ensures { result ≡ in_range t }
{
    1 <= t.width
        && t.width <= 8191
        && 1 <= t.height
        && t.height <= 8191
        && t.destination.span <= 8191
        && (!blit_raster::uses_source(t.code) || t.source.span <= 8191)
        && (!blit_raster::uses_pattern(t.code)
            || (t.pattern_row <= 7 && t.pattern_address % 64 == 0))
}

// A transfer whose numbers are in range, and the length of the memory.
#[derive(Clone, Copy)]
struct Ranged {
    t: Transfer,
    n: usize,
    ghost ranges: { Ranges t },
    ghost small_memory: { n ≤ 2097152 },
}

impl Ranged {
    // Every byte of an area lies in memory: the first does, and the two outermost.
    fn area_inside(self, a: Area) -> bool
        requires { a.span ≤ 8191 }
        ensures { result ≡ every_byte self.t (within self.n self.t a) }
    {
        if self.n <= a.address {
            return false;
        }
        let w = self.t.width - 1;
        let h = (self.t.height - 1) * a.span;
        let (left, right) = if self.t.leftward { (w, 0) } else { (0, w) };
        let (up, down) = if self.t.upward { (h, 0) } else { (0, h) };
        left + up <= a.address && a.address + (right + down) < self.n
    }

    // The same of the source, if there is one.
    fn source_inside(self) -> bool
        ensures { result ≡ (not (uses_source self.t.code) || every_byte self.t (within self.n self.t self.t.source)) }
    {
        !blit_raster::uses_source(self.t.code) || self.area_inside(self.t.source)
    }

    // Every pattern byte that the transfer uses lies in memory, where its destination does.
    fn pattern_inside(self) -> bool
        requires { every_byte self.t (within self.n self.t self.t.destination) ≡ true }
        ensures { result ≡ every_byte self.t (λ r c. ltb (pattern_place self.t r c) self.n) }
    {
        let t = self.t;
        if self.n <= t.pattern_address {
            return false;
        }
        if t.pattern_address + 64 <= self.n {
            return true;
        }
        for r in 0..t.height {
            let d = line_low(t, t.destination, r);
            let p = pattern_line(t, r);
            if !pattern_line_inside(self.n, d, p, t.width) {
                return false;
            }
        }
        true
    }

    // Number 4 is for a transfer that is not.
    #[tactic(auto, unfolding(crate::specs::Frame::is_in_memory))]
    fn inside(self) -> bool
        ensures { result ≡ is_in_memory self.n self.t }
    {
        self.area_inside(self.t.destination)
            && self.source_inside()
            && (!blit_raster::uses_pattern(self.t.code) || self.pattern_inside())
    }
}

// Every pattern byte that a line uses lies in memory.
fn pattern_line_inside(n: usize, d: usize, p: usize, w: usize) -> bool
    requires { (d + w < 2 ^ 63) × (p < 2 ^ 63) }
    ensures in_memory { result ≡ true → (k : ℕ) → k < w → p + (d + k) % 8 < n }
    ensures missing { result ≡ false → Missing n d p w }
{
    for c in 0..w.min(8) {
        if n <= p + (d + c) % 8 {
            return false;
        }
    }
    true
}

// What a transfer answers in a memory of n bytes: 3 goes before 5, and 5 before 4.
#[tactic(auto, unfolding(crate::specs::Frame::judged, crate::specs::Frame::judged_number))]
pub fn judge(n: usize, t: Transfer) -> Result<(), Refusal>
    ensures value { result ≡ judged n t }
    ensures result_value { answer_number result ≡ judged_number n t }
{
    if !length_allowed(n) {
        return Err(Refusal::Length);
    }
    if !in_range(t) {
        return Err(Refusal::Range);
    }
    if !(Ranged { t, n }).inside() {
        return Err(Refusal::Outside);
    }
    Ok(())
}
