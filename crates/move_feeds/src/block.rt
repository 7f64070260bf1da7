//! One block of changes.
ghost use Rattle.std.specs.Prelude.{◌≡◌, ◌≤◌, ◌<◌, ◌+◌, ◌-◌, ◌++◌, ◌∷◌, [], drop, length, IfOk, vec_len, vec_capacity};

use crate::moves::Change;
use field_values::Memory;
use std::alloc::Global;
use std::marker::Model;

/// Changes in one allocation, of which the first ones may be gone.
#[derive(Drop)]
pub(crate) struct Block {
    changes: Vec<Change>,
    // How many of them are gone.
    gone: usize,
}

impl Model for Block {
    ghost use Rattle.std.specs.Prelude.{◌≤◌, ◌-◌, drop, length, vec_len, vec_capacity};
    ghost use Rattle.move_feeds.specs.Block.{Queued};

    ghost Value = { Queued };

    ghost view = { λ b. record {
      items = drop b.gone b.changes.items;
      room = vec_capacity b.changes - vec_len b.changes;
    } };

    ghost invariant = { λ b. b.gone ≤ length b.changes.items };
}

impl Block {
    /// With room for so many changes at least.
    pub(crate) fn with_room(alloc: Global, most: usize) -> Result<Block, Memory>
        ensures items { IfOk result (λ block. block.items ≡ []) }
        ensures room { IfOk result (λ block. most ≤ block.room) }
    {
        Ok(Block {
            changes: Vec::with_capacity(alloc, most)?,
            gone: 0,
        })
    }

    /// How many changes it has.
    pub(crate) fn len(&self) -> usize
        ensures { result ≡ length self.now.items }
    {
        self.changes.len() - self.gone
    }

    /// For how many more there is room.
    pub(crate) fn room(&self) -> usize
        ensures { result ≡ self.now.room }
    {
        self.changes.capacity() - self.changes.len()
    }

    /// The changes, lent.
    pub(crate) fn as_slice(&self) -> &[Change]
        ensures { result.now ≡ self.now.items }
    {
        let (_, behind) = self.changes.split_at(self.gone);
        behind
    }

    /// Adds a change. It takes no memory.
    pub(crate) fn push(&mut self, change: Change)
        requires { 0 < self.old.room }
        ensures { self.new ≡ record {
          items = self.old.items ++ change ∷ [];
          room = self.old.room - 1;
        } }
    {
        self.changes.push_reserved(change);
    }

    /// Lets the first ones go.
    pub(crate) fn drop_front(&mut self, n: usize)
        requires { n ≤ length self.old.items }
        ensures { self.new ≡ record self.old { items = drop n self.old.items } }
    {
        self.gone += n;
    }
}
