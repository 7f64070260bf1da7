//! The part of a row, before it is compared with what was gathered.
ghost use Rattle.std.specs.Prelude.{IfOk, MatchOption};
ghost use Rattle.fields.specs.SetupParts.{parts};
ghost use Rattle.tracker_keeper.specs.declared.part.Part.{Part};
ghost use Rattle.tracker_keeper.specs.Kept.{IsRowOf};
ghost use Rattle.tracker_rows.specs.Listed.{InOrder};
ghost use Rattle.tracker_loading.specs.Reading.{StandsAt, IsOwnPart, IsOnlyPart};

use crate::named_sprints::has_sprints_of;
use crate::places::is_alone;
use field_values::Memory;
use fields::Setup;
use std::alloc::Global;
use tracker_keeper::laws::bodies_tell_their_parts;
use tracker_keeper::{Part, Row, read_body};

// The part of the row by its body; `None` exactly where it is of no part.
fn told_part(alloc: Global, row: &Row, setup: &Setup) -> Result<Option<Part>, Memory>
    ensures { IfOk result (λ found. MatchOption found
        ((p : Part) → ¬ IsRowOf (parts setup.now) row.now.kind row.now.no row.now.body p)
        (λ p. IsRowOf (parts setup.now) row.now.kind row.now.no row.now.body p)) }
{
    read_body(alloc, row.kind, row.no, row.body.as_str(), setup)
}

/// The part of the row at that place; `None` exactly where another row has its kind and number, its
/// body is no part's, or a sprint that it names has no row.
pub(crate) fn own_part(
    alloc: Global,
    rows: &[Row],
    place: usize,
    row: &Row,
    setup: &Setup,
) -> Result<Option<Part>, Memory>
    requires order { InOrder rows.now }
    requires there { StandsAt rows.now place row.now }
    ensures { IfOk result (λ found. MatchOption found
        ((p : Part) → ¬ IsOwnPart rows.now (parts setup.now) row.now p)
        (λ p. IsOnlyPart rows.now (parts setup.now) row.now p)) }
{
    if !is_alone(rows, place, row) {
        return Ok(None);
    }
    bodies_tell_their_parts(setup);
    match told_part(alloc, row, setup)? {
        Some(part) => {
            if has_sprints_of(rows, &part) {
                Ok(Some(part))
            } else {
                Ok(None)
            }
        }
        None => Ok(None),
    }
}
