//! One of two keepers.
ghost use Rattle.std.specs.Prelude.{◌<◌, ◌^◌, ◌⊎◌, ℕ, length, OnOk, OnErr, IfOk};
ghost use Rattle.std.specs.List.{All};
ghost use Rattle.tracker_keeper.specs.Rows.{Rows, with_ops, number_of, IsListing};
ghost use Rattle.tracker_keeper.specs.Causes.{HasKeepCause};
ghost use Rattle.tracker_cli.specs.Store.{faults_of, TellsOf, KeepsOf, LeavesOf};

use tracker_keeper::{KeepFault, Keeper, Row, RowOp};

/// What keeps a tracker's rows, as the program's first argument says: memory, or a file.
#[derive(Drop)]
pub enum Store<M: Keeper + Drop, F: Keeper + Drop> {
    Memory(M),
    File(F),
}

impl<M: Keeper + Drop, F: Keeper + Drop> Keeper for Store<M, F> {
    ghost faults = { faults_of M.faults F.faults };

    ghost tells = { TellsOf M.tells F.tells };

    ghost keeps = { KeepsOf M.keeps F.keeps };

    ghost leaves = { LeavesOf M.leaves F.leaves };

    fn commit(&mut self, ops: &[RowOp]) -> Result<(), KeepFault> {
        match self {
            Store::Memory(keeper) => keeper.commit(ops),
            Store::File(keeper) => keeper.commit(ops),
        }
    }

    fn rows(&mut self) -> Result<Vec<Row>, KeepFault> {
        match self {
            Store::Memory(keeper) => keeper.rows(),
            Store::File(keeper) => keeper.rows(),
        }
    }
}
