ghost use Rattle.std.specs.Prelude.{◌≡◌, [], ◌∷◌, ◌++◌, IfOk, OnOk, OnErr};

use field_values::{FieldNo, Memory, Moment, UserNo, Value};
use std::alloc::Global;
use std::marker::Model;

/// One field's change in a history. `change` is the number of its change group.
pub struct Entry {
    pub change: u64,
    pub at: Moment,
    pub author: UserNo,
    pub field: FieldNo,
    pub from: Value,
    pub to: Value,
}

// Written by hand, so that whoever lets one go makes one call, and its proof takes one step there.
impl Drop for Entry {
    fn drop(self) {
        let Entry {
            change: _,
            at: _,
            author: _,
            field: _,
            from: _,
            to: _,
        } = self;
    }
}

/// Entries in an order, which contracts see as the list of them.
#[derive(Drop)]
pub struct Entries {
    pub(crate) list: Vec<Entry>,
}

impl Model for Entries {
    ghost use Rattle.std.specs.Prelude.{List};
    ghost use Rattle.change_history.specs.declared.entry.Entry.{Entry};

    ghost Value = { List Entry };

    ghost view = { λ e. e.list.items };
}

/// What one edit or transition changed. Groups are numbered from 1 over the whole tracker.
#[derive(Drop)]
pub struct Group {
    pub change: u64,
    pub at: Moment,
    pub author: UserNo,
    pub entries: Entries,
}

impl Entries {
    /// No entry.
    pub fn new(alloc: Global) -> Self
        ensures { result ≡ [] }
    {
        Entries {
            list: Vec::new(alloc),
        }
    }

    /// No entry, and room for n of them.
    pub fn with_capacity(alloc: Global, n: usize) -> Result<Self, Memory>
        ensures { IfOk result (λ entries. entries ≡ []) }
    {
        Ok(Entries {
            list: Vec::with_capacity(alloc, n)?,
        })
    }

    /// Puts one more at the end, or leaves the entries as they are.
    pub fn push(&mut self, entry: Entry) -> Result<(), Memory>
        ensures ok { OnOk result (self.new ≡ self.old ++ entry ∷ []) }
        ensures err { OnErr result (self.new ≡ self.old) }
    {
        self.list.push(entry)?;
        Ok(())
    }

    /// The entries in order, lent.
    pub fn as_slice(&self) -> &[Entry]
        ensures { result.now ≡ self.now }
    {
        self.list.as_slice()
    }
}
