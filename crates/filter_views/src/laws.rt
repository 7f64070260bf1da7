//! What is proved of all filter views. These functions do nothing: each clause is a law.
ghost use Rattle.filter_views.specs.Laws.{SettlingTakesOneOff, NoneIsDueBeforeTheNext, EndsAreOfCells};

/// Settling a due cell with a later end, or with none, leaves exactly one due cell less; and no cell is due exactly where the next
/// end is after the moment, or where there is none. What has an end is the cell of a filter and an issue that are there.
pub fn due_cells()
    ensures settled { SettlingTakesOneOff }
    ensures next { NoneIsDueBeforeTheNext }
    ensures there { EndsAreOfCells }
{}
