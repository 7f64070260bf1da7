//! What is proved of the doors, and of runs before and after a setup is amended. These functions do nothing: each clause is a law.
ghost use Rattle.run_laws.specs.Amended.{AmendedRunsTellTheSame};
ghost use Rattle.run_laws.specs.Doors.{PostsAskAsLines, DoorsReplyAlike};
ghost use Rattle.run_laws.specs.Exports.{ExportsAreReadBack};
ghost use Rattle.run_laws.specs.Records.{RecordsDoAsLines};

/// A body that is posted over HTTP asks for what its line asks for, and its response has the bytes of the line's reply under
/// `exec`, behind the same tick.
pub fn doors_reply_alike()
    ensures asks { PostsAskAsLines }
    ensures replies { DoorsReplyAlike }
{}

/// The records of an import do as lines that ask for their creates: the same bytes, and the same tracker.
pub fn records_do_as_lines()
    ensures { RecordsDoAsLines }
{}

/// A run over the rows of a tracker, and one over those that `amend` made of them, begin in trackers that have the same issues and tell
/// the same of each.
pub fn amended_runs_tell_the_same()
    ensures { AmendedRunsTellTheSame }
{}

/// An export that is opened again as CSV has the header and the columns of each issue, and nothing else.
pub fn exports_are_read_back()
    ensures { ExportsAreReadBack }
{}
