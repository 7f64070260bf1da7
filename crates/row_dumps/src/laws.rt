//! What is proved of all dumps. This function does nothing: its clause is a law.
ghost use Rattle.row_dumps.specs.Laws.{DumpsAreRestored};

use row_lines::laws::texts_tell_their_rows;
use tracker_machine::parts_may_be_kept;
use tracker_rows::{rows_load_or_are_bad, trackers_load};

/// What restores a dump of a tracker's rows is the same tracker.
pub fn dumps_are_restored()
    ensures { DumpsAreRestored }
{
    texts_tell_their_rows();
    parts_may_be_kept();
    trackers_load();
    rows_load_or_are_bad();
}
