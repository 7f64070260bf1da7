// Bodies that are a text by itself: of a setup and of a rank.
ghost use Rattle.std.specs.Prelude.{◌≡◌, false, IfOk, IsTrue, MatchOption};
ghost use Rattle.field_values.specs.Parts.{Parts};
ghost use Rattle.tracker_keeper.specs.declared.part.Part.{Part};
ghost use Rattle.tracker_keeper.specs.Kept.{IsRowOf, IsSetupText};

use crate::looking::number_in;
use crate::part::Part;
use field_values::{IssueNo, Memory, Text};
use fields::{Setup, SetupFault};
use rank_strings::Rank;
use std::alloc::Global;

// Whether some setup is read from the text.
#[tactic(auto, using(crate::proofs::Lone::a_setup, crate::proofs::Lone::no_setup))]
fn is_setup(alloc: Global, text: &str) -> Result<bool, Memory>
    ensures there { IfOk result (λ is. IsTrue is → IsSetupText text.now) }
    ensures absent { IfOk result (λ is. is ≡ false → ¬ IsSetupText text.now) }
{
    match Setup::read(alloc, text.as_bytes()) {
        Ok(_) => Ok(true),
        Err(fault) => match &fault {
            SetupFault::Memory => Err(Memory),
            _ => Ok(false),
        },
    }
}

/// The part of which the row of kind 1 has that number and that body; `None` exactly where it is of none.
#[tactic(auto, using(crate::proofs::Lone::setup_row, crate::proofs::Lone::setup_numbered, crate::proofs::Lone::setup_reads))]
pub(crate) fn read_setup(alloc: Global, no: u64, body: &str) -> Result<Option<Part>, Memory>
    ensures { IfOk result (λ found. MatchOption found
        ((setup : Parts) (p : Part) → ¬ IsRowOf setup 1 no body.now p)
        (λ p. (setup : Parts) → IsRowOf setup 1 no body.now p)) }
{
    if no != 0 {
        return Ok(None);
    }
    if !is_setup(alloc, body)? {
        return Ok(None);
    }
    Ok(Some(Part::Setup {
        text: Text::copy_of(alloc, body)?,
    }))
}

/// The part of which the row of kind 5 has that number and that body; `None` exactly where it is of none.
#[tactic(auto, using(crate::proofs::Lone::rank_row, crate::proofs::Lone::rank_numbered, crate::proofs::Lone::rank_reads))]
pub(crate) fn read_rank(alloc: Global, no: u64, body: &str) -> Result<Option<Part>, Memory>
    ensures { IfOk result (λ found. MatchOption found
        ((setup : Parts) (p : Part) → ¬ IsRowOf setup 5 no body.now p)
        (λ p. (setup : Parts) → IsRowOf setup 5 no body.now p)) }
{
    let Some(issue) = number_in(no) else {
        return Ok(None);
    };
    match Rank::read(alloc, body.as_bytes()) {
        Ok(Some(rank)) => Ok(Some(Part::Rank {
            issue: IssueNo(issue),
            rank,
        })),
        Ok(None) => Ok(None),
        Err(_) => Err(Memory),
    }
}
