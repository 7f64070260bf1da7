//! What is proved of all rows. These functions do nothing: each clause is a law.
ghost use Rattle.fields.specs.SetupParts.{parts};
ghost use Rattle.tracker_keeper.specs.Kept.{TellsItsPart};

use fields::Setup;
use fields::laws::keeps_what_was_read;

/// Two parts of one kind, one number and one body are one part.
#[tactic(auto, using(crate::proofs::RowsBack::tells_its_part))]
pub fn bodies_tell_their_parts(setup: &Setup)
    ensures { TellsItsPart (parts setup.now) }
{
    keeps_what_was_read(setup);
}
