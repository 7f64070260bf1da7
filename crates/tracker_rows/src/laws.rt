//! What is proved of all lists of rows. These functions do nothing: each clause is a law.
ghost use Rattle.tracker_rows.specs.Laws.{GoodRowsLeadOn, LoadedAreTrackers, LoadedSetupsAreTheirTexts, FirstRowsHaveTheirMembers, LoadedRowsAreTheirs, MigratedRowsAreTheirs, TrackersLoad, NewTrackersHaveTheirSetups, EffectsKeepSetups, RowsLoadOne, FirstBadIsOne, LoadedHaveNoBad};

/// Good rows and one more lead to what was gathered with its part, which is what a loop over rows needs.
pub fn good_rows_lead_on()
    ensures { GoodRowsLeadOn }
{}

/// What rows load is a tracker, whose setup is that of its text but for who is in its groups. Its rows are those where they are of the
/// second format.
pub fn loaded_rows_are_a_tracker()
    ensures tracker { LoadedAreTrackers }
    ensures setup { LoadedSetupsAreTheirTexts }
    ensures rows { LoadedRowsAreTheirs }
{}

/// Rows of the first format load a tracker whose groups have the members that the setup's text gives them, and become its rows by the
/// operations that migrate them.
pub fn first_rows_are_migrated()
    ensures members { FirstRowsHaveTheirMembers }
    ensures rows { MigratedRowsAreTheirs }
{}

/// The rows of each tracker load it, where its setup is that of its text but for who is in its groups. So it is in a new tracker, and stays
/// with each effect.
pub fn trackers_load()
    ensures all { TrackersLoad }
    ensures opening { NewTrackersHaveTheirSetups }
    ensures later { EffectsKeepSetups }
{}

/// Rows load one tracker at most, or have one first bad row, and never both.
pub fn rows_load_or_are_bad()
    ensures one { RowsLoadOne }
    ensures first { FirstBadIsOne }
    ensures apart { LoadedHaveNoBad }
{}
