// What keeps rows.
ghost use Rattle.std.specs.Prelude.{◌<◌, ◌^◌, ◌⊎◌, ℕ, length, OnOk, OnErr, IfOk};
ghost use Rattle.std.specs.List.{All};
ghost use Rattle.tracker_keeper.specs.Rows.{Rows, with_ops, number_of, IsListing};
ghost use Rattle.tracker_keeper.specs.Causes.{HasKeepCause};

use crate::row::{Row, RowOp};

/// Why rows were not kept, or not told. After either, the rows are as before.
#[derive(Clone, Copy, PartialEq, Eq)]
pub enum KeepFault {
    Failed,
    Memory,
}

/// A keeper of rows. One that can't tell what it keeps says so by `tells` or by a `keeps` that never holds; one that can't tell what
/// a crash leaves of it, by a `leaves` that never holds.
pub trait Keeper {
    /// How often it has failed.
    ghost faults: { Self → ℕ };

    /// It tells what it keeps.
    ghost tells: { Self → Type 0 };

    /// It keeps these rows, so far as it tells them.
    ghost keeps: { Self → Rows → Type 0 };

    /// Whatever a crash at this moment leaves has the first rows, or the second: those that were acknowledged, or those of the
    /// commit that may be under way.
    ghost leaves: { Self → Rows → Rows → Type 0 };

    /// Carries out all operations in order, as one, or none. Once that is acknowledged a crash leaves just the rows after it. Where it
    /// is refused, a crash leaves what it could leave before, or the rows after it: never a part of them.
    fn commit(&mut self, ops: &[RowOp]) -> Result<(), KeepFault>
        // Numbers fit a signed column of 64 bits.
        requires numbers { All (λ op. number_of op < 2 ^ 63) ops.now }
        // It tells a failure only where it had one, and a keeper that can't tell what it keeps
        // can't later.
        ensures cause { HasKeepCause (faults self.old) (faults self.new) result }
        ensures told { tells self.new → tells self.old }
        // The rows are those after all operations, or those before.
        ensures done { (rows : Rows) → keeps self.old rows
            → OnOk result (keeps self.new (with_ops ops.now rows)) }
        ensures undone { (rows : Rows) → keeps self.old rows → OnErr result (keeps self.new rows) }
        // A crash leaves what it could leave before, or the rows after it; once it is acknowledged,
        // just these.
        ensures left_ok { (rows : Rows) → keeps self.old rows
            → OnOk result (leaves self.new (with_ops ops.now rows) (with_ops ops.now rows)) }
        ensures left_err { 0 < length ops.now → (rows other : Rows) → keeps self.old rows
            → leaves self.old rows other
            → OnErr result
            (leaves self.new rows other ⊎ leaves self.new rows (with_ops ops.now rows)) };

    /// All rows, by kind and then number. What a crash may leave stays.
    fn rows(&mut self) -> Result<Vec<Row>, KeepFault>
        ensures cause { HasKeepCause (faults self.old) (faults self.new) result }
        ensures told { tells self.new → tells self.old }
        ensures rows { tells self.new → (rows : Rows) → keeps self.old rows
            → IfOk result (λ list. IsListing rows list.items) }
        ensures same { (rows : Rows) → keeps self.old rows → keeps self.new rows }
        ensures left { (rows other : Rows) → keeps self.old rows → leaves self.old rows other
            → leaves self.new rows other };
}
