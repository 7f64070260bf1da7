// A commit: one transaction, with the statements of each operation in order.
ghost use Rattle.std.specs.Prelude.{◌≡◌, ◌<◌, ◌^◌, ℕ, false, true, length, IsTrue, OnOk, OnErr};
ghost use Rattle.std.specs.List.{All};
ghost use Rattle.tracker_keeper.specs.Rows.{Rows, with_ops, number_of};
ghost use Rattle.sqlite.specs.Held.{state};
ghost use Rattle.sqlite.specs.State.{HasCleanDisk, Survives};
ghost use Rattle.keeper_told.specs.Table.{IsOurs, kept_schema};
ghost use Rattle.keeper_told.specs.Keeping.{IsTable, Stores, HoldsRows, IsKeeping, IsUndone, StaysInside};
ghost use Rattle.keeper_told.specs.Crash.{LeavesJust, LeavesOr, LeavesOrMakes, LeavesAsBefore};

use crate::statements::{carry, make};
use sqlite::{Alter, Connection, Error, Transaction};
use tracker_keeper::RowOp;

// Makes the table where it is lacking.
fn make_first<S: Alter>(tx: &mut Transaction<'_, S>, lacks: bool) -> Result<(), Error>
    // The database is empty or has just our table. A transaction is open, and the connection stays
    // the same one.
    requires ours { IsOurs (state S.Store tx.old.conn.now).now.schema lacks }
    requires open { HasCleanDisk (state S.Store tx.old.conn.now)
        → IsTrue tx.old.conn.now.in_transaction }
    ensures same_reference { tx.new.conn.ghost_name ≡ tx.old.conn.ghost_name }
    // The table is there then, with the rows that there were.
    ensures made { HasCleanDisk (state S.Store tx.new.conn.now) → (rows : Rows)
        → Stores (state S.Store tx.old.conn.now).now rows
        → OnOk result (IsTable (state S.Store tx.new.conn.now).now rows) }
    // It commits nothing, and where it succeeds the transaction stays open. On a connection that a
    // fault has shut it makes no table. A crash leaves what it could leave before.
    ensures inside { HasCleanDisk (state S.Store tx.new.conn.now)
        → StaysInside (state S.Store tx.old.conn.now) (state S.Store tx.new.conn.now) result }
    ensures ran { HasCleanDisk (state S.Store tx.new.conn.now) → lacks ≡ true
        → OnOk result (IsTrue (state S.Store tx.old.conn.now).is_open) }
    ensures survives { Survives (state S.Store tx.old.conn.now) (state S.Store tx.new.conn.now)
        (λ _. ⊥) }
{
    if lacks {
        make(tx)?;
        return Ok(());
    }
    Ok(())
}

// Makes the table where it is lacking, and carries out all operations.
fn carry_all<S: Alter>(tx: &mut Transaction<'_, S>, lacks: bool, ops: &[RowOp]) -> Result<(), Error>
    // The database is empty or has just our table, and numbers fit its column. A transaction is
    // open, and the connection stays the same one.
    requires ours { IsOurs (state S.Store tx.old.conn.now).now.schema lacks }
    requires numbers { All (λ op. number_of op < 2 ^ 63) ops.now }
    requires open { HasCleanDisk (state S.Store tx.old.conn.now)
        → IsTrue tx.old.conn.now.in_transaction }
    ensures same_reference { tx.new.conn.ghost_name ≡ tx.old.conn.ghost_name }
    // The table has the rows that all operations leave.
    ensures done { HasCleanDisk (state S.Store tx.new.conn.now) → (rows : Rows)
        → Stores (state S.Store tx.old.conn.now).now rows
        → OnOk result (IsTable (state S.Store tx.new.conn.now).now (with_ops ops.now rows)) }
    // It commits nothing, and where it succeeds the transaction stays open. On a connection that a
    // fault has shut it fails, unless there is nothing to run. A crash leaves what it could leave
    // before.
    ensures inside { HasCleanDisk (state S.Store tx.new.conn.now)
        → StaysInside (state S.Store tx.old.conn.now) (state S.Store tx.new.conn.now) result }
    ensures ran { HasCleanDisk (state S.Store tx.new.conn.now) → 0 < length ops.now
        → OnOk result (IsTrue (state S.Store tx.old.conn.now).is_open) }
    ensures made { HasCleanDisk (state S.Store tx.new.conn.now) → lacks ≡ true
        → OnOk result (IsTrue (state S.Store tx.old.conn.now).is_open) }
    ensures survives { Survives (state S.Store tx.old.conn.now) (state S.Store tx.new.conn.now)
        (λ _. ⊥) }
{
    make_first(tx, lacks)?;
    'ops: for op in ops {
        carry(tx, op)?;
    }
    Ok(())
}

// Carries out all operations in one transaction, or none.
fn carry_out<S: Alter>(conn: &mut Connection<S>, lacks: bool, ops: &[RowOp]) -> Result<(), Error>
    // The database is empty or has just our table, numbers fit its column, and no transaction is
    // open.
    requires ours { IsOurs (state S.Store conn.old).now.schema lacks }
    requires numbers { All (λ op. number_of op < 2 ^ 63) ops.now }
    requires idle { conn.old.in_transaction ≡ false }
    // No transaction stays open. Where it succeeds, all operations are carried out and committed,
    // on a connection that no fault had shut.
    ensures idle { conn.new.in_transaction ≡ false }
    ensures done { HasCleanDisk (state S.Store conn.new) → (rows : Rows)
        → Stores (state S.Store conn.old).now rows
        → OnOk result (IsTable (state S.Store conn.new).now (with_ops ops.now rows)) }
    ensures settled { HasCleanDisk (state S.Store conn.new)
        → OnOk result ((state S.Store conn.new).committed ≡ (state S.Store conn.new).now) }
    ensures open { HasCleanDisk (state S.Store conn.new)
        → OnOk result (IsTrue (state S.Store conn.old).is_open) }
    // Where it fails, the connection is back at its last commit.
    ensures undone { HasCleanDisk (state S.Store conn.new)
        → OnErr result (IsUndone (state S.Store conn.old) (state S.Store conn.new)) }
    // Once it has succeeded a crash leaves just the rows after it, and else these or what it could
    // leave before. Where a fault had shut the connection already, it leaves nothing new.
    ensures left { HasCleanDisk (state S.Store conn.new) → (rows : Rows)
        → Stores (state S.Store conn.old).now rows
        → OnOk result (LeavesJust (state S.Store conn.new) (with_ops ops.now rows)) }
    ensures shut { HasCleanDisk (state S.Store conn.new) → (state S.Store conn.old).is_open ≡ false
        → 0 < length ops.now
        → LeavesAsBefore (state S.Store conn.old) (state S.Store conn.new) }
    ensures unmade { HasCleanDisk (state S.Store conn.new)
        → (state S.Store conn.old).is_open ≡ false → lacks ≡ true
        → LeavesAsBefore (state S.Store conn.old) (state S.Store conn.new) }
    ensures crash { Survives (state S.Store conn.old) (state S.Store conn.new)
        (λ trees. (rows : Rows) → Stores (state S.Store conn.old).now rows
        → HoldsRows trees (with_ops ops.now rows)) }
{
    let mut tx = conn.transaction();
    carry_all(&mut tx, lacks, ops)?;
    tx.commit()
}

/// The same, by the rows that the connection keeps.
pub(crate) fn commit<S: Alter>(
    conn: &mut Connection<S>,
    lacks: bool,
    ops: &[RowOp],
) -> Result<(), Error>
    // The database is empty or has just our table, numbers fit its column, and no transaction is
    // open.
    requires ours { IsOurs (state S.Store conn.old).now.schema lacks }
    requires numbers { All (λ op. number_of op < 2 ^ 63) ops.now }
    requires idle { conn.old.in_transaction ≡ false }
    // No transaction stays open, and no doubt about the disk is forgotten.
    ensures idle { conn.new.in_transaction ≡ false }
    ensures clean { HasCleanDisk (state S.Store conn.new) → HasCleanDisk (state S.Store conn.old) }
    // Where it succeeds all operations are carried out, and else none is.
    ensures done { (rows : Rows) → IsKeeping (state S.Store conn.old) rows
        → OnOk result (IsKeeping (state S.Store conn.new) (with_ops ops.now rows)) }
    ensures undone { (rows : Rows) → IsKeeping (state S.Store conn.old) rows
        → OnErr result (IsKeeping (state S.Store conn.new) rows) }
    // Once it has succeeded a crash leaves just the rows after it, and else these or what it could
    // leave before. Where a fault had shut the connection already, it leaves nothing new.
    ensures left { HasCleanDisk (state S.Store conn.new) → (rows : Rows)
        → IsKeeping (state S.Store conn.old) rows
        → OnOk result (LeavesJust (state S.Store conn.new) (with_ops ops.now rows)) }
    ensures crash { HasCleanDisk (state S.Store conn.new) → IsTrue (state S.Store conn.old).is_open
        → (rows : Rows)
        → IsKeeping (state S.Store conn.old) rows
        → LeavesOr (state S.Store conn.old) (state S.Store conn.new) (with_ops ops.now rows) }
    ensures shut { HasCleanDisk (state S.Store conn.new) → (state S.Store conn.old).is_open ≡ false
        → 0 < length ops.now
        → LeavesAsBefore (state S.Store conn.old) (state S.Store conn.new) }
{
    carry_out(conn, lacks, ops)
}

/// Makes the table where it is lacking, in a transaction of its own.
pub(crate) fn make_alone<S: Alter>(conn: &mut Connection<S>, lacks: bool) -> Result<(), Error>
    // The database is empty or has just our table, and no transaction is open.
    requires ours { IsOurs (state S.Store conn.old).now.schema lacks }
    requires idle { conn.old.in_transaction ≡ false }
    // No transaction stays open, and no doubt about the disk is forgotten.
    ensures idle { conn.new.in_transaction ≡ false }
    ensures clean { HasCleanDisk (state S.Store conn.new) → HasCleanDisk (state S.Store conn.old) }
    // The table is there then. Where it was there already nothing is done, and rows stay either
    // way.
    ensures made { HasCleanDisk (state S.Store conn.new)
        → OnOk result ((state S.Store conn.new).now.schema ≡ kept_schema) }
    ensures there { lacks ≡ false → conn.new ≡ conn.old }
    ensures same { (rows : Rows) → IsKeeping (state S.Store conn.old) rows
        → IsKeeping (state S.Store conn.new) rows }
    // A crash may leave nothing new but the table without a row, and not even that where a fault
    // has shut the connection.
    ensures crash { HasCleanDisk (state S.Store conn.new)
        → LeavesOrMakes (state S.Store conn.old) (state S.Store conn.new) }
    ensures shut { HasCleanDisk (state S.Store conn.new) → (state S.Store conn.old).is_open ≡ false
        → LeavesAsBefore (state S.Store conn.old) (state S.Store conn.new) }
{
    if lacks {
        return carry_out(conn, true, &[]);
    }
    Ok(())
}
