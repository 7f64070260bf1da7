// The keeper.
ghost use Rattle.std.specs.Prelude.{◌≡◌, ◌<◌, ◌^◌, ◌⊎◌, ℕ, false, length, IsTrue, OnOk, OnErr, IfOk};
ghost use Rattle.std.specs.List.{All};
ghost use Rattle.tracker_keeper.specs.Rows.{Rows, with_ops, number_of, IsListing};
ghost use Rattle.tracker_keeper.specs.Causes.{HasKeepCause, IsCounted};
ghost use Rattle.sqlite.specs.Held.{state};
ghost use Rattle.sqlite.specs.State.{HasCleanDisk};
ghost use Rattle.keeper_told.specs.Keeping.{Rises, Keeps, IsKeeping};
ghost use Rattle.keeper_told.specs.Reading.{KeepsListed};
ghost use Rattle.keeper_told.specs.Table.{kept_schema};
ghost use Rattle.keeper_told.specs.Crash.{LeavesJust, IsLeaving, LeavesOr, LeavesOrMakes, LeavesAsBefore};

use crate::listing::{fault_of, read_all};
use crate::schema::lacks_table;
use crate::transaction::commit;
use sqlite::{Alter, Connection};
use std::alloc::Global;
use tracker_keeper::{KeepFault, Keeper, Row, RowOp};

/// A keeper over a connection, whose rows are those of its one table. Its first call makes the table where there is nothing yet; where
/// there is anything else, each call fails.
#[derive(Drop)]
pub struct ToldKeeper<S: Alter> {
    conn: Connection<S>,
    alloc: Global,
    faults: u64,
    ghost idle: { conn.in_transaction ≡ false },
}

impl<S: Alter> ToldKeeper<S> {
    /// Takes the connection over as it is: it runs no statement and takes no memory.
    pub fn adopt(alloc: Global, connection: Connection<S>) -> Self
        requires { connection.in_transaction ≡ false }
        ensures same { result.conn ≡ connection }
        ensures none { result.faults ≡ 0 }
        ensures kept { (rows : Rows) → Keeps (state S.Store connection) rows
            → IsKeeping (state S.Store result.conn) rows }
        ensures left { IsTrue (state S.Store connection).is_open → (rows : Rows)
            → Keeps (state S.Store connection) rows → LeavesJust (state S.Store result.conn) rows }
    {
        // It is live.
        let _ = connection.schema();
        ToldKeeper {
            conn: connection,
            alloc,
            faults: 0,
        }
    }

    /// Hands the connection back as it is.
    pub fn release(self) -> Connection<S>
        ensures same { result ≡ self.conn }
        ensures idle { result.in_transaction ≡ false }
    {
        let ToldKeeper {
            conn,
            alloc: _,
            faults: _,
        } = self;
        conn
    }
}

// Counts a failure.
fn counted<X>(done: Result<X, KeepFault>, faults: &mut u64) -> Result<X, KeepFault>
    ensures same { result ≡ done }
    ensures counted { IsCounted faults.old faults.new result }
    ensures cause { HasKeepCause faults.old faults.new result }
{
    if let Err(KeepFault::Failed) = &done {
        *faults = faults.saturating_add(1);
    }
    done
}

// All operations, or none.
fn commit_all<S: Alter>(conn: &mut Connection<S>, ops: &[RowOp]) -> Result<(), KeepFault>
    // Numbers fit the table's column, and no transaction is open.
    requires numbers { All (λ op. number_of op < 2 ^ 63) ops.now }
    requires idle { conn.old.in_transaction ≡ false }
    // No transaction stays open, and no doubt about the disk is forgotten.
    ensures idle { conn.new.in_transaction ≡ false }
    ensures clean { HasCleanDisk (state S.Store conn.new) → HasCleanDisk (state S.Store conn.old) }
    // Where it succeeds all operations are carried out, and else none is.
    ensures done { (rows : Rows) → IsKeeping (state S.Store conn.old) rows
        → OnOk result (IsKeeping (state S.Store conn.new) (with_ops ops.now rows)) }
    ensures undone { (rows : Rows) → IsKeeping (state S.Store conn.old) rows
        → OnErr result (IsKeeping (state S.Store conn.new) rows) }
    // Once it has succeeded a crash leaves just the rows after it, and else these or what it could
    // leave before. Where a fault had shut the connection already, it leaves nothing new.
    ensures left { HasCleanDisk (state S.Store conn.new) → (rows : Rows)
        → IsKeeping (state S.Store conn.old) rows
        → OnOk result (LeavesJust (state S.Store conn.new) (with_ops ops.now rows)) }
    ensures crash { HasCleanDisk (state S.Store conn.new) → IsTrue (state S.Store conn.old).is_open
        → (rows : Rows)
        → IsKeeping (state S.Store conn.old) rows
        → LeavesOr (state S.Store conn.old) (state S.Store conn.new) (with_ops ops.now rows) }
    ensures shut { HasCleanDisk (state S.Store conn.new) → (state S.Store conn.old).is_open ≡ false
        → 0 < length ops.now
        → LeavesAsBefore (state S.Store conn.old) (state S.Store conn.new) }
    // The same, in the words of each keeper.
    ensures left_ok { (rows : Rows) → IsKeeping (state S.Store conn.old) rows
        → OnOk result
        (IsLeaving (state S.Store conn.new) (with_ops ops.now rows) (with_ops ops.now rows)) }
    ensures left_err { 0 < length ops.now → (rows other : Rows)
        → IsKeeping (state S.Store conn.old) rows → IsLeaving (state S.Store conn.old) rows other
        → OnErr result (IsLeaving (state S.Store conn.new) rows other
        ⊎ IsLeaving (state S.Store conn.new) rows (with_ops ops.now rows)) }
{
    let Some(lacks) = lacks_table(conn) else {
        return Err(KeepFault::Failed);
    };
    match commit(conn, lacks, ops) {
        Ok(()) => Ok(()),
        Err(error) => Err(fault_of(error)),
    }
}

impl<S: Alter> Keeper for ToldKeeper<S> {
    ghost faults = { λ k. k.faults };

    ghost tells = { λ k. HasCleanDisk (state S.Store k.conn) };

    ghost keeps = { λ k. IsKeeping (state S.Store k.conn) };

    ghost leaves = { λ k. IsLeaving (state S.Store k.conn) };

    fn commit(&mut self, ops: &[RowOp]) -> Result<(), KeepFault>
        // What each keeper does.
        requires numbers { All (λ op. number_of op < 2 ^ 63) ops.now }
        ensures cause { HasKeepCause self.old.faults self.new.faults result }
        ensures told { HasCleanDisk (state S.Store self.new.conn)
            → HasCleanDisk (state S.Store self.old.conn) }
        ensures done { (rows : Rows) → IsKeeping (state S.Store self.old.conn) rows
            → OnOk result (IsKeeping (state S.Store self.new.conn) (with_ops ops.now rows)) }
        ensures undone { (rows : Rows) → IsKeeping (state S.Store self.old.conn) rows
            → OnErr result (IsKeeping (state S.Store self.new.conn) rows) }
        ensures left_ok { (rows : Rows) → IsKeeping (state S.Store self.old.conn) rows
            → OnOk result (IsLeaving (state S.Store self.new.conn) (with_ops ops.now rows)
            (with_ops ops.now rows)) }
        ensures left_err { 0 < length ops.now → (rows other : Rows)
            → IsKeeping (state S.Store self.old.conn) rows
            → IsLeaving (state S.Store self.old.conn) rows other
            → OnErr result (IsLeaving (state S.Store self.new.conn) rows other
            ⊎ IsLeaving (state S.Store self.new.conn) rows (with_ops ops.now rows)) }

        // Nothing but a failure is counted.
        ensures counted { IsCounted self.old.faults self.new.faults result }

        // Once it is acknowledged, a crash leaves just the rows with all operations; where it is refused, it leaves these or what it could
        // leave before. Where a fault has shut the connection before, nothing is added to what a crash could leave.
        ensures left { HasCleanDisk (state S.Store self.new.conn) → (rows : Rows)
            → IsKeeping (state S.Store self.old.conn) rows
            → OnOk result (LeavesJust (state S.Store self.new.conn) (with_ops ops.now rows)) }
        ensures crash { HasCleanDisk (state S.Store self.new.conn)
            → IsTrue (state S.Store self.old.conn).is_open → (rows : Rows)
            → IsKeeping (state S.Store self.old.conn) rows
            → LeavesOr (state S.Store self.old.conn) (state S.Store self.new.conn)
            (with_ops ops.now rows) }
        ensures shut { HasCleanDisk (state S.Store self.new.conn)
            → (state S.Store self.old.conn).is_open ≡ false → 0 < length ops.now
            → LeavesAsBefore (state S.Store self.old.conn) (state S.Store self.new.conn) }
    {
        let done = commit_all(&mut self.conn, ops);
        counted(done, &mut self.faults)
    }

    fn rows(&mut self) -> Result<Vec<Row>, KeepFault>
        // What each keeper does.
        ensures cause { HasKeepCause self.old.faults self.new.faults result }
        ensures told { HasCleanDisk (state S.Store self.new.conn)
            → HasCleanDisk (state S.Store self.old.conn) }
        ensures rows { HasCleanDisk (state S.Store self.new.conn) → (rows : Rows)
            → IsKeeping (state S.Store self.old.conn) rows
            → IfOk result (λ list. IsListing rows list.items) }
        ensures same { (rows : Rows) → IsKeeping (state S.Store self.old.conn) rows
            → IsKeeping (state S.Store self.new.conn) rows }
        ensures left { (rows other : Rows) → IsKeeping (state S.Store self.old.conn) rows
            → IsLeaving (state S.Store self.old.conn) rows other
            → IsLeaving (state S.Store self.new.conn) rows other }
        ensures counted { IsCounted self.old.faults self.new.faults result }

        // Of a table that was there already, whatever its rows were: it keeps just the rows that it tells.
        ensures there { HasCleanDisk (state S.Store self.new.conn)
            → (state S.Store self.old.conn).now.schema ≡ kept_schema
            → Rises (state S.Store self.old.conn)
            → IfOk result (λ list. KeepsListed (state S.Store self.new.conn) list.items) }

        // A crash leaves what it could leave before, or, where there was no table yet, the table without a row.
        ensures crash { HasCleanDisk (state S.Store self.new.conn)
            → LeavesOrMakes (state S.Store self.old.conn) (state S.Store self.new.conn) }
    {
        let found = read_all(self.alloc, &mut self.conn);
        counted(found, &mut self.faults)
    }
}
