//! What is proved of all that is put out. This function does nothing: each clause is a law.
ghost use Rattle.move_feeds.specs.Laws.{EachMoveIsOne, ReplayingGivesTheSet};

/// Whoever does to a set what is put out has the set that is listed, and each move is one.
pub fn moves_replay()
    ensures set { ReplayingGivesTheSet }
    ensures moves { EachMoveIsOne }
{}
