//! What is proved of all trackers whose setup is amended. These functions do nothing: each clause is a law.
ghost use Rattle.amended_rows.specs.Laws.{RowsAreAmended};

/// The operations that amend rows make the amended rows of them.
pub fn rows_are_amended()
    ensures { RowsAreAmended }
{}
