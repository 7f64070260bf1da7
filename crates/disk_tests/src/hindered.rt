ghost use Rattle.std.specs.Prelude.{◌≡◌, ◌<◌, ◌^◌};
ghost use Rattle.std.specs.List.{All};
ghost use Rattle.tracker_keeper.specs.Rows.{number_of};
ghost use Rattle.tracker_keeper.specs.Causes.{HasKeepCause};

use crate::runs::{Left, Ran, are_same, exec_over, left_in_memory, rows_of};
use keeper_told::ToldKeeper;
use sqlite::{Connection, MemStore};
use std::alloc::{AllocError, Global};
use std::test::Fail;
use tracker_keeper::{KeepFault, Keeper, Row, RowOp};

const CREATE: &str =
    "{\"user\":\"anna\",\"call\":\"create\",\"project\":\"OPS\",\"type\":\"Task\",\"summary\":\"Fix login\",\"set\":{\"points\":\"3\"}}\n";

const REPLIES: &[u8] =
    b"{\"ok\":{\"already\":false,\"change\":1,\"issue\":\"OPS-1\"}}\n{\"refused\":{\"no\":14}}\n{\"ok\":{\"already\":false,\"change\":2,\"issue\":\"OPS-2\"}}\n";

/// A keeper over a database in memory, in which somebody else's table stands during its commit of one number. It counts its failures and
/// tells nothing else.
#[derive(Drop)]
struct Hindered {
    alloc: Global,
    keeper: Option<ToldKeeper<MemStore>>,
    commits: u64,
    hindered: u64,
    faults: u64,
}

// The keeper of a connection with no transaction open.
fn over(alloc: Global, conn: Connection<MemStore>) -> Option<ToldKeeper<MemStore>> {
    if !conn.is_autocommit() {
        return None;
    }
    Some(ToldKeeper::adopt(alloc, conn))
}

// Runs a statement on a keeper's database.
fn executed(
    alloc: Global,
    keeper: ToldKeeper<MemStore>,
    text: &str,
) -> Option<ToldKeeper<MemStore>> {
    let mut conn = keeper.release();
    let _ = conn.execute_batch(text);
    over(alloc, conn)
}

// Counts a failure.
fn counted<T>(done: Result<T, KeepFault>, faults: &mut u64) -> Result<T, KeepFault>
    ensures { HasKeepCause faults.old faults.new result }
{
    if let Err(KeepFault::Failed) = &done {
        *faults = faults.saturating_add(1);
    }
    done
}

impl Hindered {
    fn execute(&mut self, text: &str)
        ensures { self.new.faults ≡ self.old.faults }
    {
        if let Some(keeper) = self.keeper.take() {
            self.keeper = executed(self.alloc, keeper, text);
        }
    }
}

fn commit_to(keeper: &mut Option<ToldKeeper<MemStore>>, ops: &[RowOp]) -> Result<(), KeepFault>
    requires numbers { All (λ op. number_of op < 2 ^ 63) ops.now }
{
    match keeper {
        Some(keeper) => keeper.commit(ops),
        None => Err(KeepFault::Memory),
    }
}

fn rows_in(keeper: &mut Option<ToldKeeper<MemStore>>) -> Result<Vec<Row>, KeepFault> {
    match keeper {
        Some(keeper) => keeper.rows(),
        None => Err(KeepFault::Memory),
    }
}

impl Keeper for Hindered {
    ghost faults = { λ k. k.faults };

    ghost tells = { λ k. ⊥ };

    ghost keeps = { λ k rows. ⊥ };

    ghost leaves = { λ k rows other. ⊥ };

    fn commit(&mut self, ops: &[RowOp]) -> Result<(), KeepFault> {
        self.commits = self.commits.saturating_add(1);
        let is_hindered = self.commits == self.hindered;
        if is_hindered {
            self.execute("CREATE TABLE other (a)");
        }
        let told = commit_to(&mut self.keeper, ops);
        if is_hindered {
            self.execute("DROP TABLE other");
        }
        counted(told, &mut self.faults)
    }

    fn rows(&mut self) -> Result<Vec<Row>, KeepFault> {
        let told = rows_in(&mut self.keeper);
        counted(told, &mut self.faults)
    }
}

fn repeated(alloc: Global, times: usize) -> Result<Vec<u8>, AllocError> {
    let mut lines = Vec::new(alloc);
    for _ in 0..times {
        lines.extend_from_slice(CREATE.as_bytes())?;
    }
    Ok(lines)
}

// Runs three creates over a database that is hindered at the commit of this number: the status, and what is left.
fn three(alloc: Global, hindered: u64) -> Result<(u8, Left), AllocError> {
    let hindered = Hindered {
        alloc,
        keeper: over(alloc, Connection::open_in_memory(alloc)?),
        commits: 0,
        hindered,
        faults: 0,
    };
    let Ran {
        status,
        out,
        mut keeper,
    } = exec_over(alloc, &repeated(alloc, 3)?, hindered)?;
    let rows = rows_of(&mut keeper)?;
    Ok((status, Left { out, rows }))
}

#[test]
fn a_database_that_refuses_one_commit(rt: HostRuntime) -> Result<(), Fail> {
    let alloc = rt.alloc();
    // Its first commit keeps the opening rows.
    let (status, third) = three(alloc, 3)?;
    assert_eq!(rt; status, 0);
    assert_eq!(rt; third.out.as_slice(), REPLIES);
    let two = left_in_memory(alloc, &repeated(alloc, 2)?)?;
    let same = are_same(&third.rows, &two.rows);
    assert!(rt; same);
    let (status, first) = three(alloc, 1)?;
    assert_eq!(rt; status, 4);
    assert!(rt; first.out.is_empty() && first.rows.is_empty());
    Ok(())
}
