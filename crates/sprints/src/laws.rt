//! What is proved of all sprints. These functions do nothing: each clause is a law.
ghost use Rattle.sprints.specs.Laws.{OthersStand, NamesStand, NothingFollowsClosed};

/// A change of one sprint's state leaves every name, and every other sprint's state.
pub fn change_of_a_state()
    ensures others { OthersStand }
    ensures names { NamesStand }
{}

/// A closed sprint neither starts nor closes.
pub fn end_of_a_sprint()
    ensures { NothingFollowsClosed }
{}
