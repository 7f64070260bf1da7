//! What is proved of all sprints. These functions do nothing: each clause is a law.
ghost use Rattle.tracker_work.specs.Laws.{FutureSprintsAreAhead, ActiveSprintsRun, ClosedSprintsAreOver};

/// What is told of a sprint by its state: from when it started, and until when it counts.
pub fn burndowns_by_state()
    ensures future { FutureSprintsAreAhead }
    ensures active { ActiveSprintsRun }
    ensures closed { ClosedSprintsAreOver }
{}
