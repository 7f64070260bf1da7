ghost use Rattle.std.specs.Prelude.{◌≡◌, [], ◌∷◌, ◌++◌, IfOk, OnOk, OnErr};

use field_values::{FieldNo, Memory, Value};
use std::alloc::Global;
use std::marker::Model;

/// A field, and what it is to hold.
#[derive(Drop)]
pub struct Change {
    pub field: FieldNo,
    pub to: Value,
}

/// Changes in an order, which contracts see as the list of them.
#[derive(Drop)]
pub struct Changes {
    pub(crate) list: Vec<Change>,
}

impl Model for Changes {
    ghost use Rattle.std.specs.Prelude.{List};
    ghost use Rattle.change_history.specs.declared.change.Change.{Change};

    ghost Value = { List Change };

    ghost view = { λ c. c.list.items };
}

impl Changes {
    /// No change.
    pub fn new(alloc: Global) -> Self
        ensures { result ≡ [] }
    {
        Changes {
            list: Vec::new(alloc),
        }
    }

    /// No change, and room for n of them.
    pub fn with_capacity(alloc: Global, n: usize) -> Result<Self, Memory>
        ensures { IfOk result (λ changes. changes ≡ []) }
    {
        Ok(Changes {
            list: Vec::with_capacity(alloc, n)?,
        })
    }

    /// The changes of a list.
    pub fn of(list: Vec<Change>) -> Self
        ensures { result ≡ list.items }
    {
        Changes { list }
    }

    /// Puts one more at the end, or leaves the changes as they are.
    pub fn push(&mut self, change: Change) -> Result<(), Memory>
        ensures ok { OnOk result (self.new ≡ self.old ++ change ∷ []) }
        ensures err { OnErr result (self.new ≡ self.old) }
    {
        self.list.push(change)?;
        Ok(())
    }

    /// The changes in order, lent.
    pub fn as_slice(&self) -> &[Change]
        ensures { result.now ≡ self.now }
    {
        self.list.as_slice()
    }
}
