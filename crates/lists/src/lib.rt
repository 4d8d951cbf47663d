// What several layers ask of a list of bytes: the byte at a place, a byte as a number, and whether a
// length is so many whole units. The definitions are in specs/, one file a subject; the laws that other
// crates cite are in proofs/ (Tests, Scan, Tab, Put, Parts). Nothing here knows a step or a block.
#![tactic(auto)]

ghost use Rattle.std.specs.Prelude.{◌≡◌, ◌<◌, get_or};
ghost use Rattle.lists.specs.Units.{whole_units};

// The byte at a place, and 0 past the end: no Option, since the definitions read a list so.
pub fn byte_at(list: &[u8], place: usize) -> u8
    ensures { result ≡ get_or list.now place 0 }
{
    list.get(place).copied().unwrap_or(0)
}

// A byte as a number, with its bound.
pub fn wide(byte: u8) -> usize
    ensures { (result ≡ byte) × (result < 256) }
{
    usize::from(byte)
}

// Whether a length is 1 to `most` whole units. No length is whole units of nothing.
pub fn is_whole(size: usize, unit: usize, most: usize) -> bool
    ensures { result ≡ whole_units unit most size }
{
    unit != 0 && size % unit == 0 && 1 <= size / unit && size / unit <= most
}
