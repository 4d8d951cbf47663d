// The raster byte: what a raster code makes of a pattern, a source and a destination byte, worked out on whole bytes,
// and which of the operands a code depends on. Document 01, "Video memory and block transfers"; databook, appendix E.
// The byte is the sum of eight terms, one for each bit of the code.
// Callers rely on the three public contracts alone, which say nothing of how the byte is worked out.
#![tactic(auto)]

ghost use Rattle.std.specs.Prelude.{◌≡◌, ◌<◌};
ghost use Rattle.lists.specs.Bits.{bit};
ghost use Rattle.blit_raster.specs.Raster.{number, raster, uses_source, uses_pattern};

// A byte with all its bits as bit k of the code.
fn chosen(code: u8, k: u8) -> u8
    requires { k < 8 }
    ensures { result ≡ number 8 (λ i. bit k code) }
{
    if (code >> k) % 2 == 1 { 255 } else { 0 }
}

// The same byte without a choice: the bit goes to the top and is copied beside itself, then the two are, then the four. Which of
// these two functions a term has makes a difference to the compiled loops alone.
fn spread(code: u8, k: u8) -> u8
    requires { k < 8 }
    ensures { result ≡ number 8 (λ i. bit k code) }
{
    let one = (code >> k) % 2 * 128;
    let two = one | one >> 1;
    let four = two | two >> 2;
    four | four >> 4
}

// The raster byte: eight terms, one for each bit of the code, in the order of appendix E. Beside the term of a bit stands the
// print's row for the code that has this bit alone.
pub fn raster_byte(code: u8, p: u8, s: u8, d: u8) -> u8
    ensures { result ≡ raster code p s d }
{
    (!p & (!s & (!d & chosen(code, 0)))) // 01: not(D or (P or S))
        | (!p & (!s & (d & chosen(code, 1)))) // 02: D and (not(P or S))
        | (!p & (s & (!d & chosen(code, 2)))) // 04: S and (not(D or P))
        | (!p & (s & (d & spread(code, 3)))) // 08: S and (D and (notP))
        | (p & (!s & (!d & spread(code, 4)))) // 10: P and (not(D or S))
        | (p & (!s & (d & spread(code, 5)))) // 20: D and (P and (notS))
        | (p & (s & (!d & spread(code, 6)))) // 40: P and (S and (notD))
        | (p & (s & (d & chosen(code, 7)))) // 80: D and (P and S)
}

// Whether the code depends on the source, a line as of the pattern below: bits 0, 1, 4 and 5 are not bits 2, 3, 6 and 7.
pub fn uses_source(code: u8) -> bool
    ensures { result ≡ uses_source code }
{
    (code ^ (code >> 2)) & 0x33 != 0
}

// Whether the code depends on the pattern: bits 0 to 3 are not bits 4 to 7.
pub fn uses_pattern(code: u8) -> bool
    ensures { result ≡ uses_pattern code }
{
    (code ^ (code >> 4)) & 0x0f != 0
}
