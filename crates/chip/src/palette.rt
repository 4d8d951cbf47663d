// The palette. Document 01, "Palette", and document 02, P6; chapter 13 of the databook.
ghost use Rattle.std.specs.Prelude.{◌≡◌};
ghost use Rattle.chip.specs.State.{named, join, with_named, with_loading};
ghost use Rattle.chip.specs.Palette.{by_mode, bright as brightOf, component as componentOf, entry as entry_of, coloured, shown as shownOf, aimed, held, moved, loaded, palstate as palstateOf, paldata as paldataOf};
ghost use Rattle.chip.specs.Access.{write_to};
ghost use Rattle.chip.specs.Differ.{same_colour, differ};
ghost use Rattle.chip.specs.View.{view, view_wrote};
ghost use Rattle.chip_ports.specs.declared.Target.TheVariants.{Paldata};

use crate::access::Wrote;
use crate::{Chip, Loading, Rgb};
use chip_registers::Group;

// A component as a mode stores and reads it: whole, or modulo 64.
pub fn by_mode(eight: bool, v: u8) -> u8
    ensures { result ≡ by_mode eight v }
{
    if eight { v } else { v % 64 }
}

// A component as it is shown.
pub fn bright(eight: bool, v: u8) -> u8
    ensures { result ≡ brightOf eight v }
{
    if eight { v } else { v % 64 * 4 }
}

// The component of an entry at a position.
fn component(e: Rgb, position: u8) -> u8
    ensures { result ≡ componentOf e position }
{
    match position {
        2 => e.blue,
        1 => e.green,
        _ => e.red,
    }
}

// Whether two entries are the same.
pub fn is_same(a: Rgb, b: Rgb) -> bool
    ensures { result ≡ same_colour a b }
{
    a == b
}

impl Loading {
    // Either index is written.
    pub fn aim(self, v: u8, reading: bool) -> Loading
        ensures { result ≡ aimed self v reading }
    {
        Loading {
            index: v,
            position: 0,
            reading,
            ..self
        }
    }

    // A byte comes to PALDATA, and is held unless the position is blue.
    pub fn hold(mut self, v: u8) -> Loading
        ensures { result ≡ held self v }
    {
        match self.position {
            2 => {}
            1 => self.green = v,
            _ => self.red = v,
        }
        self
    }

    // The position moves on, and after blue the index.
    pub fn move_on(mut self) -> Loading
        ensures { result ≡ moved self }
    {
        match self.position {
            2 => {
                self.index = self.index.wrapping_add(1);
                self.position = 0;
            }
            1 => self.position = 2,
            _ => self.position = 1,
        }
        self
    }
}

impl Chip {
    // The entry at an index.
    pub fn entry(self, e: u8) -> Rgb
        ensures { result ≡ entry_of (named (view self)) e }
    {
        self.stored(e)
    }

    // The same of a chip that is looked at where it stands.
    pub fn stored(&self, e: u8) -> Rgb
        ensures { result ≡ entry_of (named (view self.now)) e }
    {
        self.palette[usize::from(e)]
    }

    // The state after a colour is stored at an entry, by the mode of this moment.
    pub fn put_colour(mut self, e: u8, red: u8, green: u8, blue: u8) -> Chip
        ensures { view result ≡ with_named (view self) (coloured (named (view self)) e red green blue) }
    {
        let eight = self.is_eight_bit();
        self.palette[e as usize] = Rgb {
            red: by_mode(eight, red),
            green: by_mode(eight, green),
            blue: by_mode(eight, blue),
        };
        self
    }

    // The state with another loading state.
    pub fn with_loading(mut self, l: Loading) -> Chip
        ensures { view result ≡ with_loading (view self) l }
    {
        self.loading = l;
        self
    }

    // The state after a byte is written to PALDATA.
    pub fn load(self, v: u8) -> Chip
        ensures { view result ≡ join (loaded (named (view self)) (view self).loading v) (view self).indexes (moved (held (view self).loading v)) }
    {
        let l = self.loading;
        let next = l.hold(v).move_on();
        if l.position == 2 {
            return self
                .put_colour(l.index, l.red, l.green, v)
                .with_loading(next);
        }
        self.with_loading(next)
    }

    // A byte is written to PALDATA: it tells of no register, and may change the entry at the index.
    pub fn write_colour(self, v: u8) -> Wrote
        ensures result_value { view_wrote result ≡ write_to Paldata (view self) v }
        ensures changed_value { result.changed ≡ differ (view self) (write_to Paldata (view self) v).chip }
    {
        let e = self.loading.index;
        let before = self.stored(e);
        let next = self.load(v);
        let after = next.stored(e);
        Wrote {
            answer: Ok(()),
            before: 0xFF,
            after: 0xFF,
            changed: !is_same(before, after),
            chip: next,
        }
    }

    // What PALSTATE reads: which of the two indexes was written last.
    #[tactic(auto, unfolding(crate::specs::View::view))]
    pub fn palstate(self) -> u8
        ensures { result ≡ palstateOf (view self).loading }
    {
        if self.loading.reading { 0x03 } else { 0x00 }
    }

    // What PALDATA reads: the component at the position, by the mode of this moment.
    pub fn paldata(self) -> u8
        ensures { result ≡ paldataOf (named (view self)) (view self).loading }
    {
        let e = self.stored(self.loading.index);
        by_mode(self.is_eight_bit(), component(e, self.loading.position))
    }

    // The colour that a pixel shows.
    pub fn shown(self, pixel: u8) -> Rgb
        ensures { result ≡ shownOf (named (view self)) pixel }
    {
        let eight = self.is_eight_bit();
        let e = self.stored(pixel & self.byte(Group::Palmask, 0x00));
        Rgb {
            red: bright(eight, e.red),
            green: bright(eight, e.green),
            blue: bright(eight, e.blue),
        }
    }
}
