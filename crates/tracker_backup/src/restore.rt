// The command that puts the rows of lines where there are none.
ghost use Rattle.std.specs.Prelude.{◌≡◌, ◌≢◌, ◌⊎◌, ◌<◌, ◌≤◌, [], length, IfOk, IfSome};
ghost use Rattle.std.specs.Bool.{MatchBool};
ghost use Rattle.std.specs.Io.KnownBytes.{Appends, IsAtEnd};
ghost use Rattle.request_lines.specs.Causes.{Rose};
ghost use Rattle.tracker_keeper.specs.Rows.{Rows, no_rows};
ghost use Rattle.tracker_keeper.specs.Causes.{HasKeepCause};
ghost use Rattle.status_texts.specs.Texts.{limit_input};
ghost use Rattle.tracker_backup.specs.Ends.{HasItsRows, HasSome, Writes, WritesFrontOf};
ghost use Rattle.tracker_backup.specs.Restoring.{IsInputText, IsLineText, IsRestored, IsRowText, IsStored, RestoreEnd, restore_limit};

use crate::telling::tell_line;
use request_lines::{InputFault, Sink, Source, read_whole};
use row_restore::{RestoreFault, restore as restore_rows};
use status_texts::{tell, tell_row};
use std::alloc::Global;
use tracker_keeper::{KeepFault, Keeper, Row};

/// The most bytes of an input.
const RESTORE_LIMIT: usize = 4_294_967_295;

/// Puts the rows that the lines of the input tell, where they are a tracker's and the keeper has none; answers the status and hands the
/// keeper back.
pub(crate) fn restore<S: Source, T: Sink, P: Keeper + Drop>(
    alloc: Global,
    input: &mut S,
    out: &mut T,
    keeper: P,
) -> (u8, P)
    ensures end { RestoreEnd (IsRestored P.keeps P.tells keeper result.1)
        (HasItsRows P.keeps keeper result.1) (HasSome P.keeps P.tells keeper result.1)
        result.0 (S.left input.old) (S.left input.new) (T.taken out.old) (T.taken out.new) }
    ensures read_cause { result.0 ≡ 2 → Rose (S.faults input.old) (S.faults input.new) }
    ensures write_cause { result.0 ≡ 3 → Rose (T.faults out.old) (T.faults out.new) }
    ensures keeper_cause { result.0 ≡ 4 → Rose (P.faults keeper) (P.faults result.1) }
    ensures read_later { S.faults input.old ≤ S.faults input.new }
    ensures write_later { T.faults out.old ≤ T.faults out.new }
{
    let mut keeper = keeper;
    match has_row(&mut keeper) {
        Ok(false) => restore_input(alloc, input, out, keeper),
        Ok(true) => (tell(out, b"held\n", 9), keeper),
        Err(KeepFault::Failed) => (4, keeper),
        Err(KeepFault::Memory) => (6, keeper),
    }
}

// Whether the keeper has a row.
#[tactic(auto, using(crate::proofs::Kept::tells_some))]
fn has_row<P: Keeper>(keeper: &mut P) -> Result<bool, KeepFault>
    ensures there { (rows : Rows) → P.keeps keeper.old rows → IfOk result
        (λ some. P.tells keeper.new → MatchBool some (rows ≢ no_rows) (rows ≡ no_rows)) }
    ensures same { (rows : Rows) → P.keeps keeper.old rows → P.keeps keeper.new rows }
    ensures told { P.tells keeper.new → P.tells keeper.old }
    ensures cause { HasKeepCause (P.faults keeper.old) (P.faults keeper.new) result }
{
    match keeper.rows() {
        Ok(rows) => Ok(has_some(&rows)),
        Err(fault) => Err(fault),
    }
}

fn has_some(rows: &[Row]) -> bool
    ensures { MatchBool result (rows.now ≢ []) (rows.now ≡ []) }
{
    !rows.is_empty()
}

// The same where the keeper has no row.
fn restore_input<S: Source, T: Sink, P: Keeper + Drop>(
    alloc: Global,
    input: &mut S,
    out: &mut T,
    keeper: P,
) -> (u8, P)
    ensures done { result.0 ≡ 0 → (T.taken out.new ≡ T.taken out.old)
        × IfSome (S.left input.old) (λ bytes. IsAtEnd (S.left input.new)
        × (length bytes ≤ restore_limit) × IsStored P.keeps keeper result.1 bytes) }
    ensures unwritten { (result.0 ≡ 2) ⊎ (result.0 ≡ 4) ⊎ (result.0 ≡ 6)
        → T.taken out.new ≡ T.taken out.old }
    ensures written { result.0 ≡ 3 → WritesFrontOf (T.taken out.old) (T.taken out.new)
        (IsInputText (S.left input.old)) }
    ensures bad { result.0 ≡ 5 → Writes (T.taken out.old) (T.taken out.new)
        (λ text. IfSome (S.left input.old) (λ bytes. IsRowText bytes text)) }
    ensures limit { result.0 ≡ 7 → Appends (T.taken out.old) (T.taken out.new) limit_input
        × IfSome (S.left input.old) (λ bytes. restore_limit < length bytes) }
    ensures line { result.0 ≡ 8 → Writes (T.taken out.old) (T.taken out.new)
        (λ text. IfSome (S.left input.old) (λ bytes. IsLineText bytes text)) }
    ensures same { result.0 ≢ 0 → HasItsRows P.keeps keeper result.1 }
    ensures told { P.tells result.1 → P.tells keeper }
    ensures read_cause { result.0 ≡ 2 → Rose (S.faults input.old) (S.faults input.new) }
    ensures write_cause { result.0 ≡ 3 → Rose (T.faults out.old) (T.faults out.new) }
    ensures keeper_cause { result.0 ≡ 4 → Rose (P.faults keeper) (P.faults result.1) }
    ensures read_later { S.faults input.old ≤ S.faults input.new }
    ensures write_later { T.faults out.old ≤ T.faults out.new }
    ensures keeper_later { P.faults keeper ≤ P.faults result.1 }
    ensures statuses { (result.0 ≤ 8) × (result.0 ≢ 1) }
{
    match read_whole(alloc, input, RESTORE_LIMIT) {
        Ok(bytes) => restore_bytes(alloc, bytes, out, keeper),
        Err(InputFault::Failed) => (2, keeper),
        Err(InputFault::Memory) => (6, keeper),
        Err(InputFault::TooLong) => (tell(out, b"limit input\n", 7), keeper),
    }
}

// The same of the bytes of an input.
fn restore_bytes<T: Sink, P: Keeper + Drop>(
    alloc: Global,
    bytes: Vec<u8>,
    out: &mut T,
    keeper: P,
) -> (u8, P)
    ensures done { result.0 ≡ 0 → (T.taken out.new ≡ T.taken out.old)
        × IsStored P.keeps keeper result.1 bytes.items }
    ensures unwritten { (result.0 ≡ 4) ⊎ (result.0 ≡ 6) → T.taken out.new ≡ T.taken out.old }
    ensures written { result.0 ≡ 3 → WritesFrontOf (T.taken out.old) (T.taken out.new)
        (λ text. IsLineText bytes.items text ⊎ IsRowText bytes.items text) }
    ensures bad { result.0 ≡ 5 → Writes (T.taken out.old) (T.taken out.new)
        (IsRowText bytes.items) }
    ensures line { result.0 ≡ 8 → Writes (T.taken out.old) (T.taken out.new)
        (IsLineText bytes.items) }
    ensures same { result.0 ≢ 0 → HasItsRows P.keeps keeper result.1 }
    ensures told { P.tells result.1 → P.tells keeper }
    ensures write_cause { result.0 ≡ 3 → Rose (T.faults out.old) (T.faults out.new) }
    ensures keeper_cause { result.0 ≡ 4 → Rose (P.faults keeper) (P.faults result.1) }
    ensures write_later { T.faults out.old ≤ T.faults out.new }
    ensures keeper_later { P.faults keeper ≤ P.faults result.1 }
    ensures statuses { (result.0 ≡ 0) ⊎ (result.0 ≡ 3) ⊎ (result.0 ≡ 4) ⊎ (result.0 ≡ 5)
        ⊎ (result.0 ≡ 6) ⊎ (result.0 ≡ 8) }
{
    let mut keeper = keeper;
    match restore_rows(alloc, &mut keeper, bytes) {
        Ok(()) => (0, keeper),
        Err(RestoreFault::Keeper) => (4, keeper),
        Err(RestoreFault::BadLine(number)) => (tell_line(alloc, out, number), keeper),
        Err(RestoreFault::BadRow { kind, no }) => (tell_row(alloc, out, kind, no), keeper),
        Err(RestoreFault::Memory) => (6, keeper),
    }
}
