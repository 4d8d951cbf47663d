// Port 3C0h, which takes the attribute index and the attribute data by turns, and input status 1, which returns
// the turn to the index. Document 02, P1 and P6; chapter 12 of the databook.
ghost use Rattle.std.specs.Prelude.{◌≡◌};
ghost use Rattle.chip.specs.State.{with_indexes, with_turn, index_of};
ghost use Rattle.chip.specs.Attribute.{attribute_index, attribute_aimed, attribute_set};
ghost use Rattle.chip.specs.Access.{told, attribute_wrote};
ghost use Rattle.chip.specs.Differ.{differ};
ghost use Rattle.chip.specs.View.{view, view_wrote};

use crate::Chip;
use crate::access::{Wrote, untold};
use chip_registers::Group;

impl Chip {
    // The attribute index as 3C0h reads it: the low five bits, and bit 5, the picture.
    pub fn attribute_index(self) -> u8
        ensures { result ≡ attribute_index (view self) }
    {
        let low = self.index(Group::Ar);
        if self.picture { low + 0x20 } else { low }
    }

    // The state with another turn: at data, or at the index.
    #[tactic(auto, unfolding(crate::specs::View::view))]
    pub fn with_turn(mut self, turn: bool) -> Chip
        ensures { view result ≡ with_indexes (view self) (with_turn (view self).indexes turn) }
    {
        self.indexes.turn = turn;
        self
    }

    // The state after the attribute index is written: data comes next.
    fn aim_attribute(mut self, v: u8) -> Chip
        ensures { view result ≡ attribute_aimed (view self) v }
    {
        self.picture = v / 32 % 2 == 1;
        self.with_index(Group::Ar, v).with_turn(true)
    }

    // The register at the attribute index receives a byte: an index comes next.
    fn set_attribute(self, v: u8) -> Wrote
        ensures shown { view_wrote result ≡ told Group.Ar (index_of Group.Ar (view self).indexes) (view self) (attribute_set (view self) v) }
        ensures counted { result.changed ≡ differ (view self) (attribute_set (view self) v) }
    {
        let w = self.write_data(Group::Ar, self.index(Group::Ar), v);
        Wrote {
            chip: w.chip.with_turn(false),
            ..w
        }
    }

    // A byte is written to 3C0h.
    pub fn write_attribute(self, v: u8) -> Wrote
        ensures result_value { view_wrote result ≡ attribute_wrote (view self) v }
        ensures changed_value { result.changed ≡ differ (view self) (attribute_wrote (view self) v).chip }
    {
        if self.indexes.turn {
            return self.set_attribute(v);
        }
        untold(Ok(()), self.aim_attribute(v))
    }
}
