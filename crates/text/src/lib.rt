// Text that a program prints, as bytes in ASCII: capital hexadecimal digits, numbers in decimal, and bytes put one behind the
// other into a lent output. The definitions are specs/Digits, specs/Refused and specs/Adding. Here and in the crates above an
// output and the place of the next byte are two parameters: there is no heap to put a String on, the clauses of the public
// functions (`AddedIn`) speak of that pair, and a struct of both would ask for each of these functions a second time.
#![tactic(auto)]

ghost use Rattle.std.specs.Prelude.{◌≡◌, ◌+◌, ◌≤◌, ◌<◌, ◌++◌, true, false, leb, length};
ghost use Rattle.text.specs.Digits.{last_digit, byte_digits, decimal_in, decimal};
ghost use Rattle.text.specs.Ascii.{ascii};
ghost use Rattle.text.specs.Refused.{refused, placed};
ghost use Rattle.lists.specs.Put.{Added};
ghost use Rattle.text.specs.Adding.{AddedIn};

// The last hexadecimal digit of a number.
pub fn digit(n: u16) -> u8
    ensures { result ≡ last_digit n }
{
    let d = (n % 16) as u8;
    if d < 10 { 0x30 + d } else { 0x37 + d }
}

// Whether so many bytes, and so many more, have room in an output of this size from a place on.
pub fn has_room(size: usize, at: usize, first: usize, more: usize) -> bool
    ensures value { result ≡ leb (at + (first + more)) size }
    ensures more_bound { (result ≡ true → at + (first + more) ≤ size) × (result ≡ false → size < at + (first + more)) }
{
    if size < first {
        return false;
    }
    if size - first < more {
        return false;
    }
    at <= size - first - more
}

// Bytes behind those that stand in an output with room for them; where the next one goes.
fn copy(out: &mut [u8], at: usize, bytes: &[u8]) -> usize
    requires { at + length bytes.now ≤ length out.old }
    ensures { Added out.old at bytes.now out.new result }
{
    let end = at + bytes.len();
    out[at..end].copy_from_slice(bytes);
    end
}

// Bytes behind those that stand in an output, if there is room for all of them; where the next one goes. Each function that adds
// asks for its room by itself: a closure that puts would need its bytes as a ghost value beside it, which is no plainer.
pub fn add(out: &mut [u8], at: usize, bytes: &[u8]) -> usize
    ensures { AddedIn (length bytes.now) out.old at bytes.now out.new result }
{
    if has_room(out.len(), at, bytes.len(), 0) {
        return copy(out, at, bytes);
    }
    at
}

// A space and a byte's two digits, if there is room for them; where the next byte goes.
pub fn add_byte(out: &mut [u8], at: usize, value: u8) -> usize
    ensures { AddedIn 3 out.old at (ascii " " ++ byte_digits value) out.new result }
{
    let v = u16::from(value);
    add(out, at, &[b' ', digit(v / 16), digit(v)])
}

// A number in decimal, in at most so many places, behind what stands in an output with room for so many.
fn put_decimal(out: &mut [u8], at: usize, n: usize, places: usize) -> usize
    requires { at + places ≤ length out.old }
    ensures { Added out.old at (decimal_in places n) out.new result }
{
    if places == 0 {
        return at;
    }
    if n < 10 {
        return copy(out, at, &[0x30 + n as u8]);
    }
    let next = put_decimal(out, at, n / 10, places - 1);
    copy(out, next, &[0x30 + (n % 10) as u8])
}

// A number in decimal behind what stands in an output, if there is room for the longest, 20 digits; where the next byte goes.
pub fn add_decimal(out: &mut [u8], at: usize, n: usize) -> usize
    ensures { AddedIn 20 out.old at (decimal n) out.new result }
{
    if has_room(out.len(), at, 20, 0) {
        return put_decimal(out, at, n, 20);
    }
    at
}

// The line of a refusal, behind what stands in an output with room for it.
fn put_refused(out: &mut [u8], at: usize, number: usize) -> usize
    requires { at + 29 ≤ length out.old }
    ensures { Added out.old at (refused number) out.new result }
{
    let first = copy(out, at, b"refused ");
    let end = put_decimal(out, first, number, 20);
    copy(out, end, b"\n")
}

// The line of a refusal, if there is room for the longest, 29 bytes; where the next byte goes.
pub fn add_refused(out: &mut [u8], at: usize, number: usize) -> usize
    ensures { AddedIn 29 out.old at (refused number) out.new result }
{
    if has_room(out.len(), at, 29, 0) {
        return put_refused(out, at, number);
    }
    at
}

// A place, behind what stands in an output with room for it.
fn put_place(out: &mut [u8], at: usize, word: &[u8], k: usize) -> usize
    requires { at + (length word.now + 22) ≤ length out.old }
    ensures { Added out.old at (placed word.now k) out.new result }
{
    let first = copy(out, at, word);
    let end = put_decimal(out, first, k, 20);
    copy(out, end, b": ")
}

// A place, as `show: block 3: `, if there is room for its word and 22 bytes; where the next byte goes.
pub fn add_place(out: &mut [u8], at: usize, word: &[u8], k: usize) -> usize
    ensures { AddedIn (length word.now + 22) out.old at (placed word.now k) out.new result }
{
    if has_room(out.len(), at, word.len(), 22) {
        return put_place(out, at, word, k);
    }
    at
}
