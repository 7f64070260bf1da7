//! What is proved of all ranked issues. These functions do nothing: each clause is a law.
ghost use Rattle.tracker_ranks.specs.Laws.{NoIssueIsRanked, NumbersAreRanked, RanksDiffer, EachMoveGivesOneRank, NewIssuesGoLast, MovesChangeOneRank, StartsKeepRanks, StepsKeepRanks, PlansArePicks, RanksMakeOneOrder, LoadedRanksAreThose};

/// Each issue has one rank, which no other one has; a rank that is given to an issue changes no other one's.
pub fn ranks_of_issues()
    ensures none { NoIssueIsRanked }
    ensures there { NumbersAreRanked }
    ensures differ { RanksDiffer }
    ensures given { EachMoveGivesOneRank }
{}

/// A new issue goes last, a move changes the rank of its issue alone, and both leave all issues ranked.
pub fn places_of_issues()
    ensures new { NewIssuesGoLast }
    ensures moved { MovesChangeOneRank }
{}

/// A rebalancing leaves the list of issues as it is, and all of them ranked.
pub fn rebalancing()
    ensures start { StartsKeepRanks }
    ensures step { StepsKeepRanks }
    ensures planned { PlansArePicks }
{}

/// The ranks of issues make one order, and after loading each issue has the rank of its number.
pub fn loaded_ranks()
    ensures one { RanksMakeOneOrder }
    ensures those { LoadedRanksAreThose }
{}
