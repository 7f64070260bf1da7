// The command that makes a new tracker of a setup.
ghost use Rattle.std.specs.Prelude.{◌≡◌, ◌≢◌, ◌⊎◌, ◌≤◌, ◌<◌, Some, length, IfSome};
ghost use Rattle.fields.specs.SetupParts.{parts};
ghost use Rattle.std.specs.Io.KnownBytes.{Appends, IsAtEnd};
ghost use Rattle.request_lines.specs.Causes.{Rose};
ghost use Rattle.tracker_keeper.specs.Rows.{Rows, no_rows};
ghost use Rattle.tracker_machine.specs.Machine.{opening};
ghost use Rattle.tracker_machine.specs.Kept.{rows_of};
ghost use Rattle.tracker_core.specs.Desk.{HasNoRow};
ghost use Rattle.tracker_cli.specs.Outcome.{held, limit_input, setup_limit, GrewBy, GrewByFront, HasItsRows, HasSetup, HasSomeRow, IsCreated, IsSetupText, IsInitText};

use crate::held::tell_held;
use fields::Setup;
use request_lines::{Failed, InputFault, Sink, Source, read_whole, write_all};
use status_texts::{SETUP_LIMIT, tell_fault};
use std::alloc::Global;
use tracker_core::{Desk, OpenFault};
use tracker_keeper::Keeper;

/// Reads a setup and makes a new tracker of it, where the keeper has no row; answers the status and hands the keeper back.
pub(crate) fn init<S: Source, T: Sink, P: Keeper + Drop>(
    alloc: Global,
    input: &mut S,
    out: &mut T,
    keeper: P,
) -> (u8, P)
    // The input was read as a setup, a new tracker of it is kept, and nothing was written.
    ensures done { result.0 ≡ 0
        → (T.taken out.new ≡ T.taken out.old) × IfSome (S.left input.old) (λ bytes.
        IsAtEnd (S.left input.new) × (length bytes ≤ setup_limit)
        × IsCreated P.keeps P.tells keeper result.1 bytes) }
    // In all other cases the keeper has its rows as they were, and if anything was written it's the
    // cause.
    ensures read { result.0 ≡ 2
        → (T.taken out.new ≡ T.taken out.old) × HasItsRows P.keeps keeper result.1 }
    ensures written { result.0 ≡ 3 → GrewByFront (T.taken out.old) (T.taken out.new)
        (IsInitText (HasSomeRow P.keeps P.tells keeper result.1) (S.left input.old))
        × HasItsRows P.keeps keeper result.1 }
    ensures unopened { result.0 ≡ 4
        → (T.taken out.new ≡ T.taken out.old) × HasSetup (S.left input.old)
        × HasItsRows P.keeps keeper result.1 }
    ensures memory { result.0 ≡ 6
        → (T.taken out.new ≡ T.taken out.old) × HasItsRows P.keeps keeper result.1 }
    // So they are where the input is too long or no setup, or where there are rows already.
    ensures limit { result.0 ≡ 7 → Appends (T.taken out.old) (T.taken out.new) limit_input
        × IfSome (S.left input.old) (λ bytes. setup_limit < length bytes)
        × HasItsRows P.keeps keeper result.1 }
    ensures setup { result.0 ≡ 8
        → GrewBy (T.taken out.old) (T.taken out.new) (IsSetupText (S.left input.old))
        × HasItsRows P.keeps keeper result.1 }
    ensures held { result.0 ≡ 9 → Appends (T.taken out.old) (T.taken out.new) held
        × HasSetup (S.left input.old)
        × HasSomeRow P.keeps P.tells keeper result.1 × HasItsRows P.keeps keeper result.1 }
    // What is blamed has failed, and the counts of source and sink never fall.
    ensures read_cause { result.0 ≡ 2 → Rose (S.faults input.old) (S.faults input.new) }
    ensures write_cause { result.0 ≡ 3 → Rose (T.faults out.old) (T.faults out.new) }
    ensures keeper_cause { result.0 ≡ 4 → Rose (P.faults keeper) (P.faults result.1) }
    ensures read_later { S.faults input.old ≤ S.faults input.new }
    ensures write_later { T.faults out.old ≤ T.faults out.new }
    // There is no other status.
    ensures statuses { (result.0 ≤ 9) × (result.0 ≢ 1) × (result.0 ≢ 5) }
{
    match read_whole(alloc, input, SETUP_LIMIT) {
        Ok(text) => make(alloc, &text, out, keeper),
        Err(InputFault::Failed) => (2, keeper),
        Err(InputFault::Memory) => (6, keeper),
        Err(InputFault::TooLong) => match write_all(out, b"limit input\n") {
            Ok(()) => (7, keeper),
            Err(Failed) => (3, keeper),
        },
    }
}

// Makes a new tracker of the setup that the text is.
fn make<T: Sink, P: Keeper + Drop>(alloc: Global, text: &[u8], out: &mut T, keeper: P) -> (u8, P)
    // The text is within the limit of a setup.
    requires within { length text.now ≤ setup_limit }
    // The text is a setup, a new tracker of it is kept, and nothing was written.
    ensures done { result.0 ≡ 0
        → (T.taken out.new ≡ T.taken out.old) × IsCreated P.keeps P.tells keeper result.1 text.now }
    // In all other cases the keeper has its rows as they were, and if anything was written it's the
    // cause.
    ensures written { result.0 ≡ 3 → GrewByFront (T.taken out.old) (T.taken out.new)
        (IsInitText (HasSomeRow P.keeps P.tells keeper result.1) (Some text.now))
        × HasItsRows P.keeps keeper result.1 }
    ensures unopened { result.0 ≡ 4
        → (T.taken out.new ≡ T.taken out.old) × HasSetup (Some text.now)
        × HasItsRows P.keeps keeper result.1 }
    ensures memory { result.0 ≡ 6
        → (T.taken out.new ≡ T.taken out.old) × HasItsRows P.keeps keeper result.1 }
    ensures setup { result.0 ≡ 8
        → GrewBy (T.taken out.old) (T.taken out.new) (IsSetupText (Some text.now))
        × HasItsRows P.keeps keeper result.1 }
    ensures held { result.0 ≡ 9 → Appends (T.taken out.old) (T.taken out.new) held
        × HasSetup (Some text.now)
        × HasSomeRow P.keeps P.tells keeper result.1 × HasItsRows P.keeps keeper result.1 }
    // What is blamed has failed, and the sink's count of that never falls.
    ensures write_cause { result.0 ≡ 3 → Rose (T.faults out.old) (T.faults out.new) }
    ensures keeper_cause { result.0 ≡ 4 → Rose (P.faults keeper) (P.faults result.1) }
    ensures write_later { T.faults out.old ≤ T.faults out.new }
    // There is no other status.
    ensures statuses { (result.0 ≡ 0) ⊎ (result.0 ≡ 3) ⊎ (result.0 ≡ 4) ⊎ (result.0 ≡ 6)
        ⊎ (result.0 ≡ 8) ⊎ (result.0 ≡ 9) }
{
    match Setup::read(alloc, text) {
        Ok(setup) => create(alloc, setup, out, keeper),
        Err(fault) => (tell_fault(alloc, out, fault), keeper),
    }
}

// Makes a new tracker of the setup.
fn create<T: Sink, P: Keeper + Drop>(alloc: Global, setup: Setup, out: &mut T, keeper: P) -> (u8, P)
    // A new tracker of the setup is kept by a keeper that had no row, and nothing was written.
    ensures done { result.0 ≡ 0 → (T.taken out.new ≡ T.taken out.old)
        × (P.keeps keeper no_rows → P.keeps result.1 (rows_of (opening setup.text (parts setup))))
        × ((rows : Rows) → P.keeps keeper rows → P.tells result.1 → HasNoRow rows) }
    // In all other cases nothing was written but that the keeper has rows, or a front of it, and
    // these stay.
    ensures written { result.0 ≡ 3
        → GrewByFront (T.taken out.old) (T.taken out.new) (λ due. due ≡ held)
        × HasSomeRow P.keeps P.tells keeper result.1 }
    ensures unwritten { (result.0 ≡ 4) ⊎ (result.0 ≡ 6) → T.taken out.new ≡ T.taken out.old }
    ensures held { result.0 ≡ 9
        → Appends (T.taken out.old) (T.taken out.new) held
        × HasSomeRow P.keeps P.tells keeper result.1 }
    ensures same { result.0 ≢ 0 → HasItsRows P.keeps keeper result.1 }
    // What is blamed has failed, and the sink's count of that never falls.
    ensures write_cause { result.0 ≡ 3 → Rose (T.faults out.old) (T.faults out.new) }
    ensures keeper_cause { result.0 ≡ 4 → Rose (P.faults keeper) (P.faults result.1) }
    ensures write_later { T.faults out.old ≤ T.faults out.new }
    // There is no other status.
    ensures statuses { (result.0 ≡ 0) ⊎ (result.0 ≡ 3) ⊎ (result.0 ≡ 4) ⊎ (result.0 ≡ 6)
        ⊎ (result.0 ≡ 9) }
{
    match Desk::create(alloc, keeper, setup) {
        Ok(desk) => (0, desk.close()),
        Err((OpenFault::Keeper, keeper)) => (4, keeper),
        Err((OpenFault::Memory, keeper)) => (6, keeper),
        Err((OpenFault::Held, keeper)) => (tell_held(out), keeper),
        Err((OpenFault::BadRow { .. }, _keeper)) => unreachable!(),
    }
}
