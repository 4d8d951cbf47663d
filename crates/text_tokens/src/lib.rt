// A line of text as words, and words as hexadecimal numbers: what a program reads. The definitions are specs/Tokens and
// specs/Hex.
#![tactic(auto)]

ghost use Rattle.std.specs.Prelude.{◌≡◌, cond};
ghost use Rattle.text_tokens.specs.Tokens.{grown, ended, taken, tokens_of};
ghost use Rattle.text_tokens.specs.Hex.{digit_value, is_digit, is_byte, byte_of, all_digits, value_in, number_of};

// The words of a line: how many, at most thirteen; the one that has begun, 0 between words; and each of them, 0 where there is
// none. A word is a number, its characters in base 256, and 1 for one of more than eight: so it is in specs/Tokens (`grown`,
// `ended`), and a line's words stand in fixed memory.
#[derive(Clone, Copy)]
pub struct Tokens {
    pub count: usize,
    pub begun: u64,
    pub at: [u64; 13],
}

// A word with one more character, as a capital.
#[tactic(auto, unfolding(crate::specs::Tokens::grown))]
fn grow(word: u64, c: u8) -> u64
    ensures { result ≡ grown word c }
{
    if (word == 1) | (0x0100_0000_0000_0000 <= word) {
        return 1;
    }
    256 * word + c.to_ascii_uppercase() as u64
}

// The word that was begun is at its end.
#[tactic(auto, unfolding(crate::specs::Tokens::ended))]
fn finish(s: Tokens) -> Tokens
    ensures { result ≡ ended s }
{
    if s.begun == 0 {
        return s;
    }
    if 13 <= s.count {
        return Tokens { begun: 0, ..s };
    }
    let mut at = s.at;
    at[s.count] = s.begun;
    Tokens {
        count: s.count + 1,
        begun: 0,
        at,
    }
}

// A character more of the line.
#[tactic(auto, unfolding(crate::specs::Tokens::taken))]
fn follow(s: Tokens, c: u8) -> Tokens
    ensures { result ≡ taken s c }
{
    if c < 0x21 {
        return finish(s);
    }
    Tokens {
        begun: grow(s.begun, c),
        ..s
    }
}

// The words of a line.
pub fn tokens_of(line: &[u8]) -> Tokens
    ensures { result ≡ tokens_of line.now }
{
    let mut s = Tokens {
        count: 0,
        begun: 0,
        at: [0; 13],
    };
    for c in line {
        s = follow(s, *c);
    }
    finish(s)
}

// The value of a digit, and 16 for any other character: the contract's definition has 16, which `byte_of` asks of any word.
#[tactic(auto, unfolding(crate::specs::Hex::digit_value))]
pub fn digit_value(c: u8) -> u8
    ensures { result ≡ digit_value c }
{
    if c < 0x30 {
        return 16;
    }
    if c < 0x3A {
        return c - 0x30;
    }
    if c < 0x41 {
        return 16;
    }
    if c < 0x47 {
        return c - 0x37;
    }
    16
}

// Whether a character is a digit.
fn is_digit(c: u8) -> bool
    ensures { result ≡ is_digit c }
{
    digit_value(c) < 16
}

// Whether a word is two digits.
#[tactic(auto, unfolding(crate::specs::Hex::is_byte))]
pub fn is_byte(word: u64) -> bool
    ensures { result ≡ is_byte word }
{
    let high = (word / 256 % 256) as u8;
    let low = (word % 256) as u8;
    (word < 65536) & is_digit(high) & is_digit(low)
}

// The value of a word of two digits; of any other word what the definition `byte_of` gives, so the test `is_byte` is apart.
#[tactic(auto, unfolding(crate::specs::Hex::byte_of))]
pub fn byte_of(word: u64) -> u8
    ensures { result ≡ byte_of word }
{
    let high = digit_value((word / 256 % 256) as u8) as u16;
    let low = digit_value((word % 256) as u8) as u16;
    ((16 * high + low) % 256) as u8
}

// The value of a word of at most n characters, if all of them are digits; 0 where there is no word.
fn value_in(n: u8, word: u64) -> Option<u32>
    ensures { result ≡ cond (all_digits n word) (Some (value_in n word)) None }
{
    if word == 0 {
        return Some(0);
    }
    if n == 0 {
        return None;
    }
    let last = digit_value((word % 256) as u8) as u64;
    if 16 <= last {
        return None;
    }
    let front = value_in(n - 1, word / 256)? as u64;
    Some(((16 * front + last) % 4294967296) as u32)
}

// A word read as a number of one to eight digits.
#[tactic(auto, unfolding(crate::specs::Hex::number_of))]
pub fn number_of(word: u64) -> Option<u32>
    ensures { result ≡ number_of word }
{
    if word == 0 {
        return None;
    }
    value_in(8, word)
}
