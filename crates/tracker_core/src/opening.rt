// How a desk begins that opens what is kept.
ghost use Rattle.std.specs.Prelude.{◌≡◌, ◌≤◌, ◌⊎◌, IfOk, IfErr, OnOk, OnErr, MatchOption, IsTrue, ◌↔◌};
ghost use Rattle.request_lines.specs.Causes.{Rose};
ghost use Rattle.tracker_keeper.specs.Rows.{Rows, no_rows, with_ops, IsBelow, IsListing};
ghost use Rattle.tracker_machine.specs.Kept.{rows_of, migrating_ops};
ghost use Rattle.tracker_rows.specs.Listed.{InOrder};
ghost use Rattle.tracker_rows.specs.Loading.{Loads, IsFirstBad};
ghost use Rattle.tracker_core.specs.Desk.{HasBadRow, IsKeepersOwn, IsLoaded, IsMadeOf, IsNew, IsOpened, IsOpenFault};
ghost use Rattle.tracker_core.specs.Left.{LeavesBegun, LeavesJustIts, LeavesOpened};

use crate::desk::{Desk, OpenFault, begun, has_none};
use fields::{BUILT_IN, Setup};
use std::alloc::Global;
use tracker_keeper::{Format, Keeper, Row};
use tracker_loading::{LoadFault, Loaded, load};
use tracker_state::{State, migrating_ops};

impl<P: Keeper + Drop> Desk<P> {
    /// The desk of the tracker whose rows the keeper has; where it has none, that of a new tracker, whose opening rows are
    /// kept then. Rows of the first format become those of the second, all at once. A keeper that fails, or among whose rows
    /// is a bad one, is handed back with its rows as they were.
    pub fn open(alloc: Global, keeper: P) -> Result<Desk<P>, (OpenFault, P)>
        // The desk is of the tracker whose rows the keeper had, or of a new one where it had none,
        // and its rows are kept.
        ensures opened { (rows : Rows) → P.keeps keeper rows → IfOk result (λ desk.
            P.tells desk.keeper → IsOpened BUILT_IN.now rows desk.machine) }
        ensures rows { (rows : Rows) → P.keeps keeper rows → IfOk result (λ desk.
            P.tells desk.keeper → P.keeps desk.keeper (rows_of desk.machine)) }
        // Where none is opened the keeper has its rows as they were.
        ensures same { (rows : Rows) → P.keeps keeper rows → IfErr result (λ e. P.keeps e.1 rows) }
        // A row that is called bad is the first bad one. A keeper that is blamed has failed, and
        // its count of that never falls.
        ensures fault { IfErr result (λ e. IsOpenFault (HasBadRow P.keeps P.tells keeper e.1) e.0) }
        ensures cause { IfErr result
            (λ e. e.0 ≡ OpenFault.Keeper → Rose (P.faults keeper) (P.faults e.1)) }
        ensures later_ok { IfOk result (λ desk. P.faults keeper ≤ P.faults desk.keeper) }
        ensures later_err { IfErr result (λ e. P.faults keeper ≤ P.faults e.1) }
        // Once it's open a crash leaves just its tracker's rows, and else those that were there or
        // the ones that they were to become.
        ensures left_ok { (rows : Rows) → P.keeps keeper rows → P.leaves keeper rows rows →
            IfOk result (λ desk. P.tells desk.keeper
            → LeavesJustIts P.leaves desk.keeper desk.machine) }
        ensures left_err { (rows : Rows) → P.keeps keeper rows → P.leaves keeper rows rows →
            IfErr result (λ e. P.tells e.1 → LeavesOpened P.leaves BUILT_IN.now e.1 rows) }
    {
        let mut keeper = keeper;
        let opened = opened(alloc, &mut keeper);
        match opened {
            Ok(state) => Ok(Desk::over(alloc, state, keeper)),
            Err(fault) => Err((fault, keeper)),
        }
    }
}

// The state of the rows that the keeper has, or that of a new tracker, whose opening rows are kept then.
fn opened<P: Keeper>(alloc: Global, keeper: &mut P) -> Result<State, OpenFault>
    // The state is of the tracker whose rows the keeper had, or of a new one where it had none, and
    // its rows are kept.
    ensures opened { (rows : Rows) → P.keeps keeper.old rows → IfOk result (λ state.
        P.tells keeper.new → IsOpened BUILT_IN.now rows state.machine) }
    ensures rows { (rows : Rows) → P.keeps keeper.old rows → IfOk result (λ state.
        P.tells keeper.new → P.keeps keeper.new (rows_of state.machine)) }
    // At a fault the keeper has its rows as they were.
    ensures same { (rows : Rows) → P.keeps keeper.old rows →
        OnErr result (P.keeps keeper.new rows) }
    // Where it succeeds a crash leaves just that tracker's rows, and else those that were there or
    // the ones that they were to become.
    ensures left_ok { (rows : Rows) → P.keeps keeper.old rows → P.leaves keeper.old rows rows →
        IfOk result (λ state. P.tells keeper.new
        → LeavesJustIts P.leaves keeper.new state.machine) }
    ensures left_err { (rows : Rows) → P.keeps keeper.old rows → P.leaves keeper.old rows rows →
        OnErr result (P.tells keeper.new
        → LeavesOpened P.leaves BUILT_IN.now keeper.new rows) }
    // A row that is called bad is the first bad one. A keeper that is blamed has failed, and its
    // count of that never falls.
    ensures fault { IfErr result (IsOpenFault (HasBadRow P.keeps P.tells keeper.old keeper.new)) }
    ensures cause { result ≡ Err OpenFault.Keeper →
        Rose (P.faults keeper.old) (P.faults keeper.new) }
    ensures later { P.faults keeper.old ≤ P.faults keeper.new }
{
    match keeper.rows() {
        Ok(list) => {
            if has_none(&list) {
                new_tracker(alloc, keeper)
            } else {
                resumed(alloc, keeper, &list)
            }
        }
        Err(fault) => Err(OpenFault::of(fault)),
    }
}

// The state of a new tracker, whose opening rows are kept.
fn new_tracker<P: Keeper>(alloc: Global, keeper: &mut P) -> Result<State, OpenFault>
    // A new tracker of the built-in setup begins, and a keeper that had no row keeps its opening
    // rows.
    ensures state { IfOk result (λ state. IsNew BUILT_IN.now state.machine) }
    ensures rows { P.keeps keeper.old no_rows →
        IfOk result (λ state. P.keeps keeper.new (rows_of state.machine)) }
    // A keeper that can't tell what it keeps can't later, and where none begins its rows stay.
    ensures told { P.tells keeper.new → P.tells keeper.old }
    ensures same { (rows : Rows) → P.keeps keeper.old rows →
        OnErr result (P.keeps keeper.new rows) }
    // Once it has begun a crash leaves just its rows, and else no row or these.
    ensures left_ok { P.keeps keeper.old no_rows →
        IfOk result (λ state. LeavesJustIts P.leaves keeper.new state.machine) }
    ensures left_err { P.keeps keeper.old no_rows → P.leaves keeper.old no_rows no_rows →
        OnErr result (LeavesBegun P.leaves (IsNew BUILT_IN.now) keeper.new no_rows) }
    // The rows have no part in a fault. A keeper that is blamed has failed, and its count of that
    // never falls.
    ensures own { IfErr result IsKeepersOwn }
    ensures cause { result ≡ Err OpenFault.Keeper →
        Rose (P.faults keeper.old) (P.faults keeper.new) }
    ensures later { P.faults keeper.old ≤ P.faults keeper.new }
{
    match Setup::built_in(alloc) {
        Ok(setup) => begun(alloc, keeper, setup),
        Err(_) => Err(OpenFault::Memory),
    }
}

// The state of the tracker whose rows these are, which are of the second format from then on.
fn resumed<P: Keeper>(alloc: Global, keeper: &mut P, rows: &[Row]) -> Result<State, OpenFault>
    // The state is of the tracker that these rows make, and the keeper has its rows, of the second
    // format.
    ensures loads { InOrder rows.now → IfOk result (λ state. IsMadeOf rows.now state.machine) }
    ensures rows { (kept : Rows) → P.keeps keeper.old kept → IsListing kept rows.now →
        IfOk result (λ state. P.keeps keeper.new (rows_of state.machine)) }
    // A keeper that can't tell what it keeps can't later, and at a fault its rows stay.
    ensures told { P.tells keeper.new → P.tells keeper.old }
    ensures same { (kept : Rows) → P.keeps keeper.old kept →
        OnErr result (P.keeps keeper.new kept) }
    // Where it succeeds a crash leaves just that tracker's rows, and else those that were there or
    // the ones of the second format.
    ensures left_ok { (kept : Rows) → P.keeps keeper.old kept → P.leaves keeper.old kept kept →
        IsListing kept rows.now →
        IfOk result (λ state. LeavesJustIts P.leaves keeper.new state.machine) }
    ensures left_err { (kept : Rows) → P.keeps keeper.old kept → P.leaves keeper.old kept kept →
        IsListing kept rows.now →
        OnErr result (LeavesBegun P.leaves (IsLoaded kept) keeper.new kept) }
    // A row that is called bad is the first bad one. A keeper that is blamed has failed, and its
    // count of that never falls.
    ensures fault { IfErr result
        (IsOpenFault (λ kind number. InOrder rows.now → IsFirstBad rows.now kind number)) }
    ensures cause { result ≡ Err OpenFault.Keeper →
        Rose (P.faults keeper.old) (P.faults keeper.new) }
    ensures later { P.faults keeper.old ≤ P.faults keeper.new }
{
    let Loaded { format, state } = loaded(alloc, rows)?;
    match format {
        Format::First => migrated(alloc, keeper, state),
        Format::Second => Ok(state),
    }
}

// Has the rows of a tracker that were of the first format kept in the second one, in one commit.
fn migrated<P: Keeper>(alloc: Global, keeper: &mut P, state: State) -> Result<State, OpenFault>
    // The tracker is the same, and its rows become those of the second format.
    ensures state { IfOk result (λ new. new.machine ≡ state.machine) }
    ensures rows { (kept : Rows) → P.keeps keeper.old kept →
        OnOk result (P.keeps keeper.new (with_ops (migrating_ops state.machine) kept)) }
    // A keeper that can't tell what it keeps can't later, and at a fault its rows stay.
    ensures told { P.tells keeper.new → P.tells keeper.old }
    ensures same { (kept : Rows) → P.keeps keeper.old kept →
        OnErr result (P.keeps keeper.new kept) }
    // Where it succeeds a crash leaves just the rows of the second format, and else those that were
    // there or these.
    ensures left_ok { (kept : Rows) → P.keeps keeper.old kept →
        OnOk result (P.leaves keeper.new (with_ops (migrating_ops state.machine) kept)
        (with_ops (migrating_ops state.machine) kept)) }
    ensures left_err { (kept : Rows) → P.keeps keeper.old kept → P.leaves keeper.old kept kept →
        OnErr result (P.leaves keeper.new kept kept
        ⊎ P.leaves keeper.new kept (with_ops (migrating_ops state.machine) kept)) }
    // The rows have no part in a fault. A keeper that is blamed has failed, and its count of that
    // never falls.
    ensures own { IfErr result IsKeepersOwn }
    ensures cause { result ≡ Err OpenFault.Keeper →
        Rose (P.faults keeper.old) (P.faults keeper.new) }
    ensures later { P.faults keeper.old ≤ P.faults keeper.new }
{
    state.is_tracker();
    let Ok(ops) = migrating_ops(alloc, &state) else {
        return Err(OpenFault::Memory);
    };
    match keeper.commit(&ops) {
        Ok(()) => Ok(state),
        Err(fault) => Err(OpenFault::of(fault)),
    }
}

// What these rows make, which a keeper tells in order.
fn loaded(alloc: Global, rows: &[Row]) -> Result<Loaded, OpenFault>
    ensures loads { InOrder rows.now →
        IfOk result (λ loaded. Loads loaded.format rows.now loaded.state.machine) }
    ensures fault { IfErr result
        (IsOpenFault (λ kind number. InOrder rows.now → IsFirstBad rows.now kind number)) }
    ensures cause { result ≡ Err OpenFault.Keeper → ⊥ }
{
    if let Some(row) = first_behind(rows) {
        return Err(OpenFault::BadRow {
            kind: row.kind,
            no: row.no,
        });
    }
    match load(alloc, rows) {
        Ok(loaded) => Ok(loaded),
        Err(LoadFault::BadRow { kind, no }) => Err(OpenFault::BadRow { kind, no }),
        Err(LoadFault::Memory) => Err(OpenFault::Memory),
    }
}

// The first row that stands before the one ahead of it, by kind and then number.
fn first_behind(rows: &[Row]) -> Option<&Row>
    ensures { MatchOption result (InOrder rows.now) (λ row. ¬ (InOrder rows.now)) }
{
    for at in 1..rows.len() {
        if is_below(&rows[at], &rows[at - 1]) {
            return Some(&rows[at]);
        }
    }
    None
}

fn is_below(one: &Row, other: &Row) -> bool
    ensures { IsTrue result ↔ IsBelow one.now other.now }
{
    one.kind < other.kind || (one.kind == other.kind && one.no < other.no)
}
