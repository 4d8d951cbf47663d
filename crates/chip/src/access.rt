// Port reads and writes. Document 01, "Ports" and numbers 0, 1 and 2, and document 02, P1, P5 and P6. A refused access
// hands back the state as it was.
ghost use Rattle.std.specs.Prelude.{◌≡◌, true, false};
ghost use Rattle.chip.specs.State.{named, join, with_named, index_byte, index_of, with_index};
ghost use Rattle.chip.specs.Names.{received};
ghost use Rattle.chip.specs.Access.{answer_number, access_table, untold as untoldOf, told, seen as seenOf, write_to, read_from, port_written, port_read};
ghost use Rattle.chip.specs.Differ.{differ};
ghost use Rattle.chip.specs.View.{view, view_wrote, view_seen};

use crate::Chip;
use chip_ports::{Target, leads_to};
use chip_registers::{Group, index_kept};

// Why an access is refused: its port is not listed in that direction, or the ports are closed.
#[derive(Clone, Copy)]
pub enum AccessError {
    Unlisted,
    Closed,
}

// What a port write hands back: the register's byte before and after it, FFh twice where it is refused or is of no
// register's data, and whether it changed a register or a colour. FFh is what document 02, P6, has there, and `untold` of
// specs/Access.
#[derive(Clone, Copy)]
pub struct Wrote {
    pub answer: Result<(), AccessError>,
    pub before: u8,
    pub after: u8,
    pub changed: bool,
    pub chip: Chip,
}

// What a port read hands back; the value is FFh where it is refused. It stands beside the answer and not in it, since a refused
// read has it too: `read_from` and `port_read` of specs/Access.
#[derive(Clone, Copy)]
pub struct Seen {
    pub answer: Result<(), AccessError>,
    pub value: u8,
    pub chip: Chip,
}

// Document 01's number of an answer: a function by name and no `From`, as `answer_number`, which its clause cites.
pub fn number(a: Result<(), AccessError>) -> u8
    ensures { result ≡ answer_number a }
{
    match a {
        Ok(()) => 0,
        Err(AccessError::Unlisted) => 1,
        Err(AccessError::Closed) => 2,
    }
}

// A write that changes no register and no colour, and tells of none.
pub fn untold(answer: Result<(), AccessError>, chip: Chip) -> Wrote
    ensures { (view_wrote result ≡ untoldOf answer (view chip)) × (result.changed ≡ false) }
{
    Wrote {
        answer,
        before: 0xFF,
        after: 0xFF,
        changed: false,
        chip,
    }
}

// What a read hands back.
fn gives(answer: Result<(), AccessError>, value: u8, chip: Chip) -> Seen
    ensures { view_seen result ≡ seenOf answer value (view chip) }
{
    Seen {
        answer,
        value,
        chip,
    }
}

impl Chip {
    // The byte that holds a group's index; MSR and PALMASK have none, and stand at 0.
    #[tactic(auto, unfolding(crate::specs::View::view))]
    fn index_byte(self, g: Group) -> u8
        ensures { result ≡ index_byte g (view self).indexes }
    {
        match g {
            Group::Cr => self.indexes.cr,
            Group::Sr => self.indexes.sr,
            Group::Gr => self.indexes.gr,
            Group::Xr => self.indexes.xr,
            Group::Fr => self.indexes.fr,
            Group::Mr => self.indexes.mr,
            Group::Msr | Group::Palmask => 0x00,
            Group::Ar => self.indexes.ar,
        }
    }

    // A group's index: the bits that its index register has.
    pub fn index(self, g: Group) -> u8
        ensures { result ≡ index_of g (view self).indexes }
    {
        index_kept(g, self.index_byte(g))
    }

    // The state after a group's index is written: it keeps the bits that its index register has.
    #[tactic(auto, unfolding(crate::specs::View::view))]
    pub fn with_index(mut self, g: Group, v: u8) -> Chip
        ensures { view result ≡ join (named (view self)) (with_index g (view self).indexes v) (view self).loading }
    {
        let kept = index_kept(g, v);
        match g {
            Group::Cr => self.indexes.cr = kept,
            Group::Sr => self.indexes.sr = kept,
            Group::Gr => self.indexes.gr = kept,
            Group::Xr => self.indexes.xr = kept,
            Group::Fr => self.indexes.fr = kept,
            Group::Mr => self.indexes.mr = kept,
            Group::Msr | Group::Palmask => {}
            Group::Ar => self.indexes.ar = kept,
        }
        self
    }

    // A register receives a byte, and its byte before and after is told.
    pub fn write_data(self, g: Group, i: u8, v: u8) -> Wrote
        ensures result_value { view_wrote result ≡ told g i (view self) (with_named (view self) (received g (named (view self)) i v)) }
        ensures changed_value { result.changed ≡ differ (view self) (with_named (view self) (received g (named (view self)) i v)) }
    {
        let before = self.byte(g, i);
        let next = self.put(g, i, v);
        let after = next.byte(g, i);
        Wrote {
            answer: Ok(()),
            before,
            after,
            changed: before != after,
            chip: next,
        }
    }

    // A byte written where a port leads, to a chip that is looked at where it stands: only what is done there copies it.
    fn write_to(&self, t: Target, v: u8) -> Wrote
        ensures shown { view_wrote result ≡ write_to t (view self.now) v }
        ensures counted { result.changed ≡ differ (view self.now) (write_to t (view self.now) v).chip }
    {
        match t {
            Target::Index(g) => untold(Ok(()), self.with_index(g, v)),
            Target::Data(g) => self.write_data(g, self.index(g), v),
            Target::ReadIndex => untold(Ok(()), self.with_loading(self.loading.aim(v, true))),
            Target::WriteIndex => untold(Ok(()), self.with_loading(self.loading.aim(v, false))),
            Target::Paldata => self.write_colour(v),
            Target::Attribute => self.write_attribute(v),
            Target::NotPicked => untold(Ok(()), *self),
            Target::Status | Target::NotListed => untold(Err(AccessError::Unlisted), *self),
        }
    }

    // A port write.
    pub fn write(self, port: u16, v: u8) -> Wrote
        ensures result_value { view_wrote result ≡ port_written (view self) port v }
        ensures answer_value { answer_number result.answer ≡ access_table true (view self) port }
        ensures changed_value { result.changed ≡ differ (view self) (port_written (view self) port v).chip }
    {
        if !self.is_open() {
            return untold(Err(AccessError::Closed), self);
        }
        self.write_to(leads_to(self.picks_3dx(), true, port), v)
    }

    // A byte read from where a port leads, of a chip that is looked at in the same way.
    fn read_from(&self, t: Target) -> Seen
        ensures { view_seen result ≡ read_from t (view self.now) }
    {
        match t {
            Target::Index(g) => gives(Ok(()), self.index(g), *self),
            Target::Data(g) => gives(Ok(()), self.byte(g, self.index(g)), *self),
            Target::ReadIndex => gives(Ok(()), self.palstate(), *self),
            Target::WriteIndex => gives(Ok(()), self.loading.index, *self),
            Target::Paldata => gives(
                Ok(()),
                self.paldata(),
                self.with_loading(self.loading.move_on()),
            ),
            Target::Attribute => gives(Ok(()), self.attribute_index(), *self),
            Target::Status => gives(Ok(()), 0x00, self.with_turn(false)),
            Target::NotPicked => gives(Ok(()), 0xFF, *self),
            Target::NotListed => gives(Err(AccessError::Unlisted), 0xFF, *self),
        }
    }

    // A port read.
    pub fn read(self, port: u16) -> Seen
        ensures result_value { view_seen result ≡ port_read (view self) port }
        ensures answer_value { answer_number result.answer ≡ access_table false (view self) port }
    {
        if !self.is_open() {
            return gives(Err(AccessError::Closed), 0xFF, self);
        }
        self.read_from(leads_to(self.picks_3dx(), false, port))
    }
}
