ghost use Rattle.std.specs.Prelude.{◌≡◌, ◌<◌, [], ◌∷◌, ◌++◌, length, OnOk, OnErr};
ghost use Rattle.field_values.specs.GroupMembers.{with_members};

use crate::memory::Memory;
use crate::numbers::UserNo;
use crate::parts::Group;
use std::alloc::Global;
use std::marker::Model;

/// A sequence of things, which contracts see as the list of them.
#[derive(Drop)]
pub struct Sequence<T: Drop> {
    items: Vec<T>,
}

impl<T: Drop> Model for Sequence<T> {
    ghost use Rattle.std.specs.Prelude.{List};

    ghost Value = { List T };

    ghost view = { λ s. s.items.items };
}

impl<T: Drop> Sequence<T> {
    /// The empty sequence.
    pub fn new(alloc: Global) -> Self
        ensures { result ≡ [] }
    {
        Sequence {
            items: Vec::new(alloc),
        }
    }

    /// Puts one more at the end, or leaves the sequence as it is.
    pub fn push(&mut self, item: T) -> Result<(), Memory>
        ensures ok { OnOk result (self.new ≡ self.old ++ item ∷ []) }
        ensures err { OnErr result (self.new ≡ self.old) }
    {
        self.items.push(item)?;
        Ok(())
    }

    /// The things in order, lent.
    pub fn as_slice(&self) -> &[T]
        ensures { result.now ≡ self.now }
    {
        self.items.as_slice()
    }
}

impl Sequence<Group> {
    /// Gives the group at a place these members.
    #[tactic(auto, using(crate::proofs::Members::set_is))]
    pub fn set_members(&mut self, place: usize, members: Sequence<UserNo>)
        requires { place < length self.old }
        ensures { self.new ≡ with_members self.old place members }
    {
        self.items[place].members = members;
    }
}
