// The lines of a transfer, each of which becomes what document 01's bytes, done one at a time, make of it.
// Where a line reads nothing that it has written, the order of its bytes does not matter: it is done in ascending order, with its
// pattern laid out beside it, as a move, in place, or from a copy of its source. A line that reads what it wrote some way before
// is done in pieces of that length, and any other byte by byte. Each way meets the same definition.

ghost use Rattle.std.specs.Prelude.{◌≡◌, cond, true, false, ℕ, ◌+◌, ◌-◌, ◌*◌, ◌%◌, ◌^◌, ◌<◌, ◌≤◌, ◌⊎◌, length, get_or};
ghost use Rattle.blit_raster.specs.Raster.{uses_source, uses_pattern};
ghost use Rattle.blit_frame.specs.Frame.{accepted};
ghost use Rattle.blit_frame.specs.Lines.{byte_at, low_of, line_low, pattern_low};
ghost use Rattle.blit.specs.Transfer.{in_turn, line_done, lines_done};
ghost use Rattle.blit.specs.Working.{Part, Apart, SourceStill, PatternStill, LiesIn, PatternIn, Room, source_low, lines_below};
ghost use Rattle.blit.specs.Working.{line_byte, byte_of, bytes_from, blended_byte, taken_byte, becomes_of};

use crate::line::Line;
use blit_frame::{Transfer, least, line_low, pattern_line};

// An operand that is not looked at counts as 0.
fn fetch(mem: &[u8], used: bool, at: usize) -> u8
    requires { used ≡ true → at < length mem.now }
    ensures { result ≡ cond used (get_or mem.now at 0) 0 }
{
    if used { mem[at] } else { 0 }
}

// Byte c of a line.
fn byte_at(left: bool, low: usize, w: usize, c: usize) -> usize
    requires { (c < w) × (low + w < 2 ^ 63) }
    ensures { (result ≡ byte_at left low w c) × (result < low + w) }
{
    if left { low + (w - 1 - c) } else { low + c }
}

// A line byte by byte in its direction: right whatever overlaps. Const parameters for the same reason as those of `blend`, below.
// A call of its own: inside `all_lines` the direction and the code's terms would be tested at each byte. The line's numbers are
// parameters of their own, and no `Line`: that would have to lie in memory for the call.
#[inline(never)]
fn in_order<const SOURCE: bool, const PATTERN: bool>(
    mem: &mut [u8],
    code: u8,
    left: bool,
    d: usize,
    s: usize,
    p: usize,
    w: usize,
)
    requires lies_in { (d + w ≤ length mem.old) × (s + w ≤ length mem.old) × (length mem.old < 2 ^ 62) }
    requires pattern_begins { p < 2 ^ 62 }
    requires pattern_in { (c : ℕ) → c < w → p + byte_at left d w c % 8 < length mem.old }
    ensures { mem.new ≡ in_turn w (line_byte code SOURCE PATTERN left d s p w) mem.old }
{
    let source = SOURCE;
    let pattern = PATTERN;
    for c in 0..w {
        let i = byte_at(left, d, w, c);
        let j = byte_at(left, s, w, c);
        let pb = fetch(mem, pattern, p + i % 8);
        let sb = fetch(mem, source, j);
        mem[i] = blit_raster::raster_byte(code, pb, sb, mem[i]);
    }
}

// The n bytes of `from` at `start`, to `to` at `at`.
fn copy(to: &mut [u8], at: usize, from: &[u8], start: usize, n: usize)
    requires { (at + n ≤ length to.old) × (start + n ≤ length from.now) }
    ensures copied { Part at (bytes_from start from.now) 0 n to.old to.new }
    ensures bytes { (k : ℕ) → k < n → get_or from.now (start + k) 0 < 256 }
{
    to[at..at + n].copy_from_slice(&from[start..start + n]);
}

// The raster bytes of a line in place, with its pattern in `pat` from f on. Whether it has a source and a pattern are const
// parameters: as plain ones they would be tested at each byte.
fn blend<const SOURCE: bool, const PATTERN: bool>(
    mem: &mut [u8],
    pat: &[u8],
    code: u8,
    d: usize,
    s: usize,
    f: usize,
    w: usize,
)
    requires in_bounds { (d + w ≤ length mem.old) × (s + w ≤ length mem.old) × (f + w ≤ length pat.now) }
    requires source_unwritten { SOURCE ≡ true → (Apart d s w) ⊎ (s ≡ d) }
    ensures { Part d (blended_byte code SOURCE PATTERN d s f pat.now mem.old) 0 w mem.old mem.new }
{
    let source = SOURCE;
    let pattern = PATTERN;
    for c in 0..w {
        let pb = fetch(pat, pattern, f + c);
        let sb = fetch(mem, source, s + c);
        mem[d + c] = blit_raster::raster_byte(code, pb, sb, mem[d + c]);
    }
}

// The same of a line whose source was copied to `src`. A loop of its own: a slice that is written cannot be lent as the source
// too, and with a closure for the source's byte the contract would be one of calls, and not what each byte becomes.
fn blend_taken<const PATTERN: bool>(
    mem: &mut [u8],
    pat: &[u8],
    src: &[u8],
    code: u8,
    d: usize,
    f: usize,
    w: usize,
)
    requires { (d + w ≤ length mem.old) × (w ≤ length src.now) × (f + w ≤ length pat.now) }
    ensures { Part d (taken_byte code PATTERN d f pat.now src.now mem.old) 0 w mem.old mem.new }
{
    let pattern = PATTERN;
    for c in 0..w {
        let pb = fetch(pat, pattern, f + c);
        mem[d + c] = blit_raster::raster_byte(code, pb, src[c], mem[d + c]);
    }
}

// The raster bytes of a line in place, of a code that looks at no pattern. With the code known the compiler makes a loop of what
// is left of its terms, so each such code has one; CCh does not come here. A const parameter for the code would ask for the same
// table. The line's numbers are parameters of their own, and no `Line`: that would have to lie in memory for the call.
fn blend_plain(mem: &mut [u8], pat: &[u8], code: u8, d: usize, s: usize, w: usize)
    requires in_bounds { (d + w ≤ length mem.old) × (s + w ≤ length mem.old) × (w ≤ length pat.now) }
    requires source_unwritten { (Apart d s w) ⊎ (s ≡ d) }
    ensures { Part d (blended_byte code true false d s 0 pat.now mem.old) 0 w mem.old mem.new }
{
    let f = 0;
    match code {
        0x00 => blend::<true, false>(mem, pat, 0x00, d, s, f, w),
        0x11 => blend::<true, false>(mem, pat, 0x11, d, s, f, w),
        0x22 => blend::<true, false>(mem, pat, 0x22, d, s, f, w),
        0x33 => blend::<true, false>(mem, pat, 0x33, d, s, f, w),
        0x44 => blend::<true, false>(mem, pat, 0x44, d, s, f, w),
        0x55 => blend::<true, false>(mem, pat, 0x55, d, s, f, w),
        0x66 => blend::<true, false>(mem, pat, 0x66, d, s, f, w),
        0x77 => blend::<true, false>(mem, pat, 0x77, d, s, f, w),
        0x88 => blend::<true, false>(mem, pat, 0x88, d, s, f, w),
        0x99 => blend::<true, false>(mem, pat, 0x99, d, s, f, w),
        0xAA => blend::<true, false>(mem, pat, 0xAA, d, s, f, w),
        0xBB => blend::<true, false>(mem, pat, 0xBB, d, s, f, w),
        0xDD => blend::<true, false>(mem, pat, 0xDD, d, s, f, w),
        0xEE => blend::<true, false>(mem, pat, 0xEE, d, s, f, w),
        0xFF => blend::<true, false>(mem, pat, 0xFF, d, s, f, w),
        _ => blend::<true, false>(mem, pat, code, d, s, f, w),
    }
}

// The same with its pattern in `pat` from f on, and a loop for each code that looks at the pattern and at no source.
fn blend_filled(mem: &mut [u8], pat: &[u8], code: u8, d: usize, s: usize, f: usize, w: usize)
    requires in_bounds { (d + w ≤ length mem.old) × (s + w ≤ length mem.old) × (f + w ≤ length pat.now) }
    requires apart { uses_source code ≡ true → Apart d s w }
    ensures { Part d (blended_byte code (uses_source code) true d s f pat.now mem.old) 0 w mem.old mem.new }
{
    if blit_raster::uses_source(code) {
        blend::<true, true>(mem, pat, code, d, s, f, w);
        return;
    }
    match code {
        0x05 => blend::<false, true>(mem, pat, 0x05, d, s, f, w),
        0x0A => blend::<false, true>(mem, pat, 0x0A, d, s, f, w),
        0x0F => blend::<false, true>(mem, pat, 0x0F, d, s, f, w),
        0x50 => blend::<false, true>(mem, pat, 0x50, d, s, f, w),
        0x5A => blend::<false, true>(mem, pat, 0x5A, d, s, f, w),
        0x5F => blend::<false, true>(mem, pat, 0x5F, d, s, f, w),
        0xA0 => blend::<false, true>(mem, pat, 0xA0, d, s, f, w),
        0xA5 => blend::<false, true>(mem, pat, 0xA5, d, s, f, w),
        0xAF => blend::<false, true>(mem, pat, 0xAF, d, s, f, w),
        0xF0 => blend::<false, true>(mem, pat, 0xF0, d, s, f, w),
        0xF5 => blend::<false, true>(mem, pat, 0xF5, d, s, f, w),
        0xFA => blend::<false, true>(mem, pat, 0xFA, d, s, f, w),
        _ => blend::<false, true>(mem, pat, code, d, s, f, w),
    }
}

// The same with its source in `src`, and a loop for each code that looks at the source and at no pattern.
fn blend_copied(mem: &mut [u8], pat: &[u8], src: &[u8], code: u8, d: usize, f: usize, w: usize)
    requires { (d + w ≤ length mem.old) × (w ≤ length src.now) × (f + w ≤ length pat.now) }
    ensures { Part d (taken_byte code (uses_pattern code) d f pat.now src.now mem.old) 0 w mem.old mem.new }
{
    if blit_raster::uses_pattern(code) {
        blend_taken::<true>(mem, pat, src, code, d, f, w);
        return;
    }
    match code {
        0x11 => blend_taken::<false>(mem, pat, src, 0x11, d, f, w),
        0x22 => blend_taken::<false>(mem, pat, src, 0x22, d, f, w),
        0x33 => blend_taken::<false>(mem, pat, src, 0x33, d, f, w),
        0x44 => blend_taken::<false>(mem, pat, src, 0x44, d, f, w),
        0x66 => blend_taken::<false>(mem, pat, src, 0x66, d, f, w),
        0x77 => blend_taken::<false>(mem, pat, src, 0x77, d, f, w),
        0x88 => blend_taken::<false>(mem, pat, src, 0x88, d, f, w),
        0x99 => blend_taken::<false>(mem, pat, src, 0x99, d, f, w),
        0xBB => blend_taken::<false>(mem, pat, src, 0xBB, d, f, w),
        0xCC => blend_taken::<false>(mem, pat, src, 0xCC, d, f, w),
        0xDD => blend_taken::<false>(mem, pat, src, 0xDD, d, f, w),
        0xEE => blend_taken::<false>(mem, pat, src, 0xEE, d, f, w),
        _ => blend_taken::<false>(mem, pat, src, code, d, f, w),
    }
}

// From k on each byte is the one k before it: what repeats after eight goes on to n.
fn spread(buf: &mut [u8], k: usize, n: usize)
    requires { (1 ≤ k) × (k % 8 ≡ 0) × (n ≤ length buf.old) }
    ensures { (g : ℕ → ℕ) → ((x : ℕ) → x < k → x < n → get_or buf.old x 0 ≡ g (x % 8)) → (x : ℕ) → x < n → get_or buf.new x 0 ≡ g (x % 8) }
{
    for c in k..n {
        buf[c] = buf[c - k];
    }
}

// The pattern's eight bytes from p, again and again, to n bytes of a buffer, if the pattern is used.
fn tile(mem: &[u8], buf: &mut [u8], used: bool, p: usize, n: usize)
    requires pattern_in_memory { used ≡ true → p + 8 ≤ length mem.now }
    requires room { (16 ≤ length buf.old) × (n ≤ length buf.old) }
    ensures { used ≡ true → (x : ℕ) → x < n → get_or buf.new x 0 ≡ get_or mem.now (p + x % 8) 0 }
{
    if !used {
        return;
    }
    copy(buf, 0, mem, p, 8);
    copy(buf, 8, mem, p, 8);
    spread(buf, 16, least(n, 64));
    spread(buf, 64, n);
}

// How far two addresses are apart.
fn gap(a: usize, b: usize) -> usize
    ensures { (a ≤ b → a + result ≡ b) × (b ≤ a → b + result ≡ a) }
{
    a.abs_diff(b)
}

// Where n bytes begin that follow the first c of a line.
fn piece_low(left: bool, w: usize, c: usize, n: usize) -> usize
    requires { c + n ≤ w }
    ensures { (result ≡ cond left (w - c - n) c) × (result + n ≤ w) }
{
    if left { w - c - n } else { c }
}

// What is done with a line. The memory and the two buffers stay parameters of their own: of the bytes of a slice that is lent
// through a field nothing is known.
impl Line {
    // Whether the code looks at a source, and at a pattern.
    fn source(self) -> bool
        ensures { result ≡ uses_source self.code }
    {
        blit_raster::uses_source(self.code)
    }

    fn pattern(self) -> bool
        ensures { result ≡ uses_pattern self.code }
    {
        blit_raster::uses_pattern(self.code)
    }

    // No byte of the source is written before it is read. The tests are joined with `|`, here and below: with `||` narrow lines
    // are copied a tenth slower.
    fn source_still(self) -> bool
        requires { (self.d + self.w < 2 ^ 63) × (self.s + self.w < 2 ^ 63) }
        ensures { result ≡ true → SourceStill self.left self.d self.s self.w }
    {
        if self.left {
            return (self.s <= self.d) | (self.d + self.w <= self.s);
        }
        (self.d <= self.s) | (self.s + self.w <= self.d)
    }

    // The line writes none of its pattern's eight bytes, which all lie in the n bytes of memory, if there is a pattern.
    fn pattern_still(self, n: usize) -> bool
        requires { (self.d + self.w < 2 ^ 63) × (self.p < 2 ^ 62) }
        ensures { result ≡ true → uses_pattern self.code ≡ true → PatternStill n self.d self.p self.w }
    {
        if !self.pattern() {
            return true;
        }
        (self.p + 8 <= n) & ((self.p + 8 <= self.d) | (self.d + self.w <= self.p))
    }

    // Source and destination have no byte in common, if there is a source.
    fn apart(self) -> bool
        requires { (self.d + self.w < 2 ^ 63) × (self.s + self.w < 2 ^ 63) }
        ensures { result ≡ true → uses_source self.code ≡ true → Apart self.d self.s self.w }
    {
        !self.source() | (self.d + self.w <= self.s) | (self.s + self.w <= self.d)
    }

    // Byte by byte. Inlined, as `in_order` is not: a call of its own would have the line in memory, and narrow lines would be a
    // seventh slower.
    #[inline(always)]
    fn one_by_one(self, mem: &mut [u8])
        requires lies_in { LiesIn (length mem.old) self }
        requires pattern_in { PatternIn (length mem.old) self }
        ensures { mem.new ≡ in_turn self.w (byte_of self) mem.old }
    {
        if self.pattern() {
            if self.source() {
                in_order::<true, true>(mem, self.code, self.left, self.d, self.s, self.p, self.w);
                return;
            }
            in_order::<false, true>(mem, self.code, self.left, self.d, self.s, self.p, self.w);
            return;
        }
        if self.source() {
            in_order::<true, false>(mem, self.code, self.left, self.d, self.s, self.p, self.w);
            return;
        }
        in_order::<false, false>(mem, self.code, self.left, self.d, self.s, self.p, self.w);
    }

    // A line of code CCh, by way of a buffer.
    fn move_whole(self, mem: &mut [u8])
        requires lies_in { LiesIn (length mem.old) self }
        requires narrow { self.w ≤ 8192 }
        ensures moved { Part self.d (bytes_from self.s mem.old) 0 self.w mem.old mem.new }
        ensures bytes { (k : ℕ) → k < self.w → get_or mem.old (self.s + k) 0 < 256 }
    {
        let mut buf = [0u8; 8192];
        copy(&mut buf, 0, mem, self.s, self.w);
        copy(mem, self.d, &buf, 0, self.w);
    }

    // The raster bytes, by way of a copy of the source. Inlined for the same reason.
    #[inline(always)]
    fn piece(self, mem: &mut [u8], pat: &mut [u8], src: &mut [u8])
        requires lies_in { LiesIn (length mem.old) self }
        requires room { Room self.w pat.old src.old }
        requires pattern_whole { uses_pattern self.code ≡ true → self.p + 8 ≤ length mem.old }
        ensures { Part self.d (becomes_of self mem.old) 0 self.w mem.old mem.new }
    {
        tile(mem, pat, self.pattern(), self.p, self.d % 8 + self.w);
        copy(src, 0, mem, self.s, self.w);
        blend_copied(mem, pat, src, self.code, self.d, self.d % 8, self.w);
    }

    // A line that reads what it wrote k bytes before, k bytes at a time.
    fn pieces(self, mem: &mut [u8], pat: &mut [u8], src: &mut [u8], k: usize)
        requires lies_in { LiesIn (length mem.old) self }
        requires room { Room self.w pat.old src.old }
        requires pattern_still { uses_pattern self.code ≡ true → PatternStill (length mem.old) self.d self.p self.w }
        requires source_still { SourceStill self.left self.d self.s k }
        requires some { 1 ≤ k }
        ensures { mem.new ≡ in_turn self.w (byte_of self) mem.old }
    {
        let mut c = 0;
        // Not a `for`: it counts by pieces, of which the last is shorter, and `step_by` leaves the goal that it ends.
        while c < self.w {
            let n = least(self.w - c, k);
            let o = piece_low(self.left, self.w, c, n);
            let next = Line {
                code: self.code,
                left: self.left,
                d: self.d + o,
                s: self.s + o,
                p: self.p,
                w: n,
            };
            next.piece(mem, pat, src);
            c += n;
        }
    }

    // A line that reads nothing that it has written, by the quickest way.
    fn still(self, mem: &mut [u8], pat: &mut [u8], src: &mut [u8])
        requires lies_in { LiesIn (length mem.old) self }
        requires room { Room self.w pat.old src.old }
        requires pattern_whole { uses_pattern self.code ≡ true → self.p + 8 ≤ length mem.old }
        requires narrow { self.w ≤ 8191 }
        ensures { Part self.d (becomes_of self mem.old) 0 self.w mem.old mem.new }
    {
        if self.code == 0xCC {
            self.move_whole(mem);
            return;
        }
        if !self.apart() {
            self.piece(mem, pat, src);
            return;
        }
        if self.pattern() {
            tile(mem, pat, true, self.p, self.d % 8 + self.w);
            blend_filled(mem, pat, self.code, self.d, self.s, self.d % 8, self.w);
            return;
        }
        blend_plain(mem, pat, self.code, self.d, self.s, self.w);
    }

    // The line, by the quickest way that it allows.
    fn done(self, mem: &mut [u8], pat: &mut [u8], src: &mut [u8])
        requires lies_in { LiesIn (length mem.old) self }
        requires pattern_in { PatternIn (length mem.old) self }
        requires room { Room self.w pat.old src.old }
        requires narrow { self.w ≤ 8191 }
        ensures { mem.new ≡ in_turn self.w (byte_of self) mem.old }
    {
        if !self.pattern_still(mem.len()) {
            self.one_by_one(mem);
            return;
        }
        if self.source_still() {
            self.still(mem, pat, src);
            return;
        }
        let k = gap(self.d, self.s);
        if k < 32 {
            self.one_by_one(mem);
            return;
        }
        self.pieces(mem, pat, src, k);
    }
}

// ---- The lines of a transfer, each from where the lowest one lies.

// How many of h lines lie below line r. The lowest line is the one whose number is what this is of line 0.
fn lines_below(up: bool, h: usize, r: usize) -> usize
    requires { r < h }
    ensures { (result ≡ cond up (h - 1 - r) r) × (result < h) }
{
    if up { h - 1 - r } else { r }
}

// Where the line with k lines below it lies.
fn low_above(low: usize, span: usize, k: usize) -> usize
    requires { (low < 2 ^ 62) × (span ≤ 8191) × (k ≤ 8191) }
    ensures { result ≡ low + k * span }
{
    low + k * span
}

// The lowest address of a line's source or, for want of one, of its destination again; and the span of either.
fn source_low(t: Transfer, source: bool, r: usize, d: usize) -> usize
    ensures { result ≡ cond source (low_of t.leftward t.upward (t.source.address % 2 ^ 32) (t.source.span % 2 ^ 32) (t.width % 2 ^ 32) (r % 2 ^ 32)) d }
{
    if source {
        return line_low(t, t.source, r);
    }
    d
}

fn source_span(t: Transfer, source: bool) -> usize
    ensures { result ≡ cond source t.source.span t.destination.span }
{
    if source {
        return t.source.span;
    }
    t.destination.span
}

// The first of a line's eight pattern bytes, 0 for want of a pattern.
fn pattern_low(t: Transfer, pattern: bool, r: usize) -> usize
    ensures { (result ≡ cond pattern (pattern_low t.upward (t.pattern_address % 2 ^ 32) t.pattern_row r) 0) × (result < 2 ^ 33) }
{
    if pattern {
        return pattern_line(t, r);
    }
    0
}

// A transfer, with where its lowest line lies and that line's source.
#[derive(Clone, Copy)]
struct Lines {
    t: Transfer,
    dlow: usize,
    slow: usize,
    ghost destination_lowest: { dlow ≡ line_low t t.destination (lines_below t 0) },
    ghost source_lowest: { slow ≡ source_low t (lines_below t 0) },
}

impl Lines {
    // Line r.
    fn one(self, mem: &mut [u8], pat: &mut [u8], src: &mut [u8], r: usize)
        requires accepted { accepted (length mem.old) self.t ≡ true }
        requires room { Room self.t.width pat.old src.old }
        requires in_height { r < self.t.height }
        ensures { mem.new ≡ line_done self.t r mem.old }
    {
        let t = self.t;
        let source = blit_raster::uses_source(t.code);
        let pattern = blit_raster::uses_pattern(t.code);
        let k = lines_below(t.upward, t.height, r);
        let d = low_above(self.dlow, t.destination.span, k);
        let s = low_above(self.slow, source_span(t, source), k);
        let p = pattern_low(t, pattern, r);
        let line = Line {
            code: t.code,
            left: t.leftward,
            d,
            s,
            p,
            w: t.width,
        };
        line.done(mem, pat, src);
    }
}

// The lines, one after the other.
fn all_lines(mem: &mut [u8], pat: &mut [u8], src: &mut [u8], t: Transfer)
    requires accepted { accepted (length mem.old) t ≡ true }
    requires room { Room t.width pat.old src.old }
    ensures { mem.new ≡ lines_done t mem.old }
{
    let lowest = lines_below(t.upward, t.height, 0);
    let dlow = line_low(t, t.destination, lowest);
    let slow = source_low(t, blit_raster::uses_source(t.code), lowest, dlow);
    let lines = Lines { t, dlow, slow };
    for r in 0..t.height {
        lines.one(mem, pat, src, r);
    }
}

// A narrow transfer has small buffers, which are quickly made.
pub(crate) fn run(mem: &mut [u8], t: Transfer)
    requires { accepted (length mem.old) t ≡ true }
    ensures { mem.new ≡ lines_done t mem.old }
{
    if t.width <= 64 {
        let mut pat = [0u8; 72];
        let mut src = [0u8; 64];
        all_lines(mem, &mut pat, &mut src, t);
        return;
    }
    let mut pat = [0u8; 8200];
    let mut src = [0u8; 8192];
    all_lines(mem, &mut pat, &mut src, t);
}
