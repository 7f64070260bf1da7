//! What is proved of verdicts and of the order of issues. These functions do nothing: each clause is a law.
ghost use Rattle.jql_eval.specs.Laws.{StaysRight, IsRightElsewhere, SprintsFitOneField, OneSprintIsHeld, OrderIsTotal, TurnsRound, OneNumberTies};

/// A right verdict stays right at each later moment before its end, and wherever only sprints differ that the issue isn't in.
pub fn right_verdicts()
    ensures later { StaysRight }
    ensures elsewhere { IsRightElsewhere }
{}

/// A value that names a sprint stands in the field sprint alone, so an issue whose values fit is in the sprint that this
/// field holds and in no other.
pub fn sprints_of_issues()
    ensures field { SprintsFitOneField }
    ensures held { OneSprintIsHeld }
{}

/// Issues are listed in a total order, in which only issues of one number tie.
pub fn order_of_issues()
    ensures total { OrderIsTotal }
    ensures turned { TurnsRound }
    ensures ties { OneNumberTies }
{}
