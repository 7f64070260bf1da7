// The command that gives a tracker another setup.
ghost use Rattle.std.specs.Prelude.{◌≡◌, ◌≢◌, ◌⊎◌, ◌≤◌, ◌<◌, Some, length, IfSome};
ghost use Rattle.std.specs.Io.KnownBytes.{Appends, IsAtEnd};
ghost use Rattle.fields.specs.SetupParts.{parts};
ghost use Rattle.request_lines.specs.Causes.{Rose};
ghost use Rattle.tracker_keeper.specs.Rows.{Rows, IsListing};
ghost use Rattle.amended_rows.specs.Amending.{ComesOf, IsInTheWay};
ghost use Rattle.status_texts.specs.Setups.{setup_limit, HasSetup, IsSetupText};
ghost use Rattle.status_texts.specs.Texts.{limit_input};
ghost use Rattle.status_texts.specs.Written.{GrewBy, GrewByFront, IsKeptText};
ghost use Rattle.tracker_amend.specs.Amend.{HasAmended, HasInTheWay, HasItsRows, IsAmendText, IsInTheWayOf, IsRowText, LeavesEither};

use fields::Setup;
use request_lines::{InputFault, Sink, Source, read_whole};
use row_amend::{AmendFault, amend};
use status_texts::{SETUP_LIMIT, tell, tell_fault, tell_row};
use std::alloc::Global;
use tracker_keeper::{KeepFault, Keeper, Row};

/// Reads a setup and gives it to the tracker whose rows the keeper has, or makes a new tracker of it where it has none; answers the status:
/// 0 it was done; 2 the source failed; 3 the sink failed; 4 the keeper failed; 5 a row stands in the way, which is told; 6 want of
/// memory; 7 the input passes its limit; 8 the input is no setup, and why is told. But for 0 the rows stay as they were.
#[tactic(auto, using(crate::proofs::Amends::leaves_still))]
pub fn amend_setup<S: Source, T: Sink, P: Keeper>(
    alloc: Global,
    input: &mut S,
    out: &mut T,
    keeper: &mut P,
) -> u8
    // The input was read to its end as a setup, the rows are those that come of them for it, and nothing was written.
    ensures done { result ≡ 0
        → (T.taken out.new ≡ T.taken out.old) × IfSome (S.left input.old) (λ bytes.
        IsAtEnd (S.left input.new) × (length bytes ≤ setup_limit)
        × HasAmended P.keeps P.tells P.leaves keeper.old keeper.new bytes) }
    // In all other cases the keeper has its rows as they were, and a crash leaves these, or those
    // that come of them.
    ensures same { result ≢ 0 → HasItsRows P.keeps keeper.old keeper.new }
    ensures left { result ≢ 0 → LeavesEither P.keeps P.tells P.leaves (S.left input.old)
        keeper.old keeper.new }
    // If anything was written it's the cause.
    ensures unwritten { (result ≡ 2) ⊎ (result ≡ 4) ⊎ (result ≡ 6)
        → T.taken out.new ≡ T.taken out.old }
    ensures written { result ≡ 3 → GrewByFront (T.taken out.old) (T.taken out.new)
        (IsAmendText (HasInTheWay P.keeps P.tells keeper.old keeper.new) (S.left input.old)) }
    ensures unopened { result ≡ 4 → HasSetup (S.left input.old) }
    ensures bad { result ≡ 5 → GrewBy (T.taken out.old) (T.taken out.new)
        (IsRowText (HasInTheWay P.keeps P.tells keeper.old keeper.new) (S.left input.old)) }
    ensures limit { result ≡ 7 → Appends (T.taken out.old) (T.taken out.new) limit_input
        × IfSome (S.left input.old) (λ bytes. setup_limit < length bytes) }
    ensures setup { result ≡ 8
        → GrewBy (T.taken out.old) (T.taken out.new) (IsSetupText (S.left input.old)) }
    // What is blamed has failed, and no count of that falls.
    ensures read_cause { result ≡ 2 → Rose (S.faults input.old) (S.faults input.new) }
    ensures write_cause { result ≡ 3 → Rose (T.faults out.old) (T.faults out.new) }
    ensures keeper_cause { result ≡ 4 → Rose (P.faults keeper.old) (P.faults keeper.new) }
    ensures read_later { S.faults input.old ≤ S.faults input.new }
    ensures write_later { T.faults out.old ≤ T.faults out.new }
    ensures keeper_later { P.faults keeper.old ≤ P.faults keeper.new }
    // There is no other status.
    ensures statuses { (result ≤ 8) × (result ≢ 1) }
{
    match read_whole(alloc, input, SETUP_LIMIT) {
        Ok(text) => amend_by(alloc, &text, out, keeper),
        Err(InputFault::Failed) => 2,
        Err(InputFault::Memory) => 6,
        Err(InputFault::TooLong) => tell(out, b"limit input\n", 7),
    }
}

// Gives the setup that the text is to the tracker whose rows the keeper has.
#[tactic(auto, using(crate::proofs::Amends::leaves_still))]
fn amend_by<T: Sink, P: Keeper>(alloc: Global, text: &[u8], out: &mut T, keeper: &mut P) -> u8
    // The text is within the limit of a setup.
    requires within { length text.now ≤ setup_limit }
    // The text is a setup, the rows are those that come of them for it, and nothing was written.
    ensures done { result ≡ 0 → (T.taken out.new ≡ T.taken out.old)
        × HasAmended P.keeps P.tells P.leaves keeper.old keeper.new text.now }
    // In all other cases the keeper has its rows as they were, and a crash leaves these, or those
    // that come of them.
    ensures same { result ≢ 0 → HasItsRows P.keeps keeper.old keeper.new }
    ensures left { result ≢ 0 → LeavesEither P.keeps P.tells P.leaves (Some text.now)
        keeper.old keeper.new }
    // If anything was written it's the cause.
    ensures unwritten { (result ≡ 4) ⊎ (result ≡ 6) → T.taken out.new ≡ T.taken out.old }
    ensures written { result ≡ 3 → GrewByFront (T.taken out.old) (T.taken out.new)
        (IsAmendText (HasInTheWay P.keeps P.tells keeper.old keeper.new) (Some text.now)) }
    ensures unopened { result ≡ 4 → HasSetup (Some text.now) }
    ensures bad { result ≡ 5 → GrewBy (T.taken out.old) (T.taken out.new)
        (IsRowText (HasInTheWay P.keeps P.tells keeper.old keeper.new) (Some text.now)) }
    ensures setup { result ≡ 8
        → GrewBy (T.taken out.old) (T.taken out.new) (IsSetupText (Some text.now)) }
    // What is blamed has failed, and no count of that falls.
    ensures write_cause { result ≡ 3 → Rose (T.faults out.old) (T.faults out.new) }
    ensures keeper_cause { result ≡ 4 → Rose (P.faults keeper.old) (P.faults keeper.new) }
    ensures write_later { T.faults out.old ≤ T.faults out.new }
    ensures keeper_later { P.faults keeper.old ≤ P.faults keeper.new }
    // There is no other status.
    ensures statuses { (result ≡ 0) ⊎ (result ≡ 3) ⊎ (result ≡ 4) ⊎ (result ≡ 5) ⊎ (result ≡ 6)
        ⊎ (result ≡ 8) }
{
    match Setup::read(alloc, text) {
        Ok(setup) => amend_to(alloc, setup, out, keeper),
        Err(fault) => tell_fault(alloc, out, fault),
    }
}

// Gives the setup to the tracker whose rows the keeper has.
fn amend_to<T: Sink, P: Keeper>(alloc: Global, setup: Setup, out: &mut T, keeper: &mut P) -> u8
    // The rows are those that come of them for the setup, and nothing was written.
    ensures done { result ≡ 0 → (T.taken out.new ≡ T.taken out.old)
        × ((rows : Rows) → P.keeps keeper.old rows → P.tells keeper.new
        → (after : Rows) × ComesOf setup.text (parts setup) rows after
        × P.keeps keeper.new after × P.leaves keeper.new after after) }
    // In all other cases the keeper has its rows as they were, and a crash leaves these, or those
    // that come of them.
    ensures same { result ≢ 0 → HasItsRows P.keeps keeper.old keeper.new }
    ensures left { result ≢ 0 → (rows : Rows) → P.keeps keeper.old rows
        → P.leaves keeper.old rows rows → P.tells keeper.new
        → P.leaves keeper.new rows rows
        ⊎ ((after : Rows) × ComesOf setup.text (parts setup) rows after
        × P.leaves keeper.new rows after) }
    // If anything was written it is which row stands in the way, or a front of that.
    ensures unwritten { (result ≡ 4) ⊎ (result ≡ 6) → T.taken out.new ≡ T.taken out.old }
    ensures written { result ≡ 3 → GrewByFront (T.taken out.old) (T.taken out.new)
        (IsKeptText (λ kind number. (rows : Rows) → P.keeps keeper.old rows → P.tells keeper.new
        → IsInTheWay setup.text (parts setup) rows kind number)) }
    ensures bad { result ≡ 5 → GrewBy (T.taken out.old) (T.taken out.new)
        (IsKeptText (λ kind number. (rows : Rows) → P.keeps keeper.old rows → P.tells keeper.new
        → IsInTheWay setup.text (parts setup) rows kind number)) }
    // What is blamed has failed, and no count of that falls.
    ensures write_cause { result ≡ 3 → Rose (T.faults out.old) (T.faults out.new) }
    ensures keeper_cause { result ≡ 4 → Rose (P.faults keeper.old) (P.faults keeper.new) }
    ensures write_later { T.faults out.old ≤ T.faults out.new }
    ensures keeper_later { P.faults keeper.old ≤ P.faults keeper.new }
    // There is no other status.
    ensures statuses { (result ≡ 0) ⊎ (result ≡ 3) ⊎ (result ≡ 4) ⊎ (result ≡ 5) ⊎ (result ≡ 6) }
{
    match keeper.rows() {
        Ok(rows) => amend_told(alloc, rows, setup, out, keeper),
        Err(KeepFault::Failed) => 4,
        Err(KeepFault::Memory) => 6,
    }
}

// The same, where the keeper has told these rows.
fn amend_told<T: Sink, P: Keeper>(
    alloc: Global,
    rows: Vec<Row>,
    setup: Setup,
    out: &mut T,
    keeper: &mut P,
) -> u8
    ensures done { result ≡ 0 → (T.taken out.new ≡ T.taken out.old)
        × ((kept : Rows) → P.keeps keeper.old kept → IsListing kept rows.items
        → (after : Rows) × ComesOf setup.text (parts setup) kept after
        × P.keeps keeper.new after × P.leaves keeper.new after after) }
    ensures same { result ≢ 0 → HasItsRows P.keeps keeper.old keeper.new }
    ensures left { result ≢ 0 → (kept : Rows) → P.keeps keeper.old kept
        → IsListing kept rows.items → P.leaves keeper.old kept kept
        → P.leaves keeper.new kept kept
        ⊎ ((after : Rows) × ComesOf setup.text (parts setup) kept after
        × P.leaves keeper.new kept after) }
    ensures unwritten { (result ≡ 4) ⊎ (result ≡ 6) → T.taken out.new ≡ T.taken out.old }
    ensures written { result ≡ 3 → GrewByFront (T.taken out.old) (T.taken out.new)
        (IsKeptText (IsInTheWayOf setup.text (parts setup) rows.items)) }
    ensures bad { result ≡ 5 → GrewBy (T.taken out.old) (T.taken out.new)
        (IsKeptText (IsInTheWayOf setup.text (parts setup) rows.items)) }
    ensures told { P.tells keeper.new → P.tells keeper.old }
    ensures write_cause { result ≡ 3 → Rose (T.faults out.old) (T.faults out.new) }
    ensures keeper_cause { result ≡ 4 → Rose (P.faults keeper.old) (P.faults keeper.new) }
    ensures write_later { T.faults out.old ≤ T.faults out.new }
    ensures keeper_later { P.faults keeper.old ≤ P.faults keeper.new }
    ensures statuses { (result ≡ 0) ⊎ (result ≡ 3) ⊎ (result ≡ 4) ⊎ (result ≡ 5) ⊎ (result ≡ 6) }
{
    match amend(alloc, keeper, rows, setup) {
        Ok(()) => 0,
        Err(AmendFault::Keeper) => 4,
        Err(AmendFault::BadRow { kind, no }) => tell_row(alloc, out, kind, no),
        Err(AmendFault::Memory) => 6,
    }
}
