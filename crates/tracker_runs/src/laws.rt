ghost use Rattle.tracker_runs.specs.RankLaws.{TrackersHaveRanks, NewTrackersHaveRanks, RunsKeepRanks, MovesAreOfOneIssue, RebalancingShowsInRanksAlone, OthersLeaveRanks, RebalancingsEnd};

/// In every state of a run each issue has one rank, which no other one has, and the ranks agree with the balance.
pub fn ranks_stay_distinct()
    ensures trackers { TrackersHaveRanks }
    ensures opening { NewTrackersHaveRanks }
    ensures runs { RunsKeepRanks }
{}

/// A move changes the place of the moved issue alone.
pub fn moves_are_of_one_issue()
    ensures { MovesAreOfOneIssue }
{}

/// A rebalancing shows in ranks alone: the replies to all other lines are the same without it, as long as there is room for
/// each rank.
#[tactic(auto, using(crate::proofs::Rebalanced::rebalancing_shows_in_ranks_alone))]
pub fn rebalancing_shows_in_ranks_alone()
    ensures { RebalancingShowsInRanksAlone }
{}

/// After an accepted start, accepted steps of one count end a rebalancing, whatever lines come among them that aren't accepted as
/// a create, a move, a start or another step: of n issues, at most 50,000, and count c just the greater of 1 and n / c rounded
/// up. None of them is refused for want of room, and every rank then has nine bytes.
pub fn rebalancings_end()
    ensures others { OthersLeaveRanks }
    ensures ends { RebalancingsEnd }
{}
