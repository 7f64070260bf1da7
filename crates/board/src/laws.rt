//! What is proved of every order. These functions do nothing: each clause is a law.
ghost use Rattle.board.specs.Laws.{RanksPutThere, OrderIsKept, RankIsComputed, NoOtherRankIsGiven, RefusalIsComputed, MovesKeepTheOrder, IssuesAreMoved, PlacesGoByIssues, RowsAreTheMembers, RankAboveAllGoesLast, RankAboveTheLastGoesLast};

/// The rank that is given for a place puts the issue there and nowhere else, and all other pairs stand; and any rank that no other
/// issue has leaves an order.
pub fn moves_keep_the_order()
    ensures there { RanksPutThere }
    ensures kept { OrderIsKept }
{}

/// The rank for a place is computed from the order, or the neighbours between which there is none.
pub fn computed_moves()
    ensures rank { RankIsComputed }
    ensures alone { NoOtherRankIsGiven }
    ensures refusal { RefusalIsComputed }
    ensures order { MovesKeepTheOrder }
{}

/// Places go by the list of issues alone, and a move takes its issue out of the list and puts it in again at its place.
pub fn places_by_issues()
    ensures same { PlacesGoByIssues }
    ensures moved { IssuesAreMoved }
{}

/// The rows of a board are the issues of the order that are members.
pub fn rows_of_a_board()
    ensures { RowsAreTheMembers }
{}

/// Ranks that rise are put one behind the other, so that an order is built from a sorted list without a shift.
pub fn ranks_that_rise()
    ensures all { RankAboveAllGoesLast }
    ensures last { RankAboveTheLastGoesLast }
{}
