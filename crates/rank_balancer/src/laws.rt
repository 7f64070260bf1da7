//! What is proved of every pick and of every step. These functions do nothing: each clause is a law.
ghost use Rattle.rank_balancer.specs.Laws.{OnePickKeepsAll, PicksKeepAll, StepsEnd, StepIsComputed, NoOtherStep, NoOtherRefusal, PlacesKeepTheBalance, MovesKeepTheBalance};

/// A pick keeps the order, the balance and the list of issues, and so do all picks of a step.
pub fn picks_keep_the_order()
    ensures one { OnePickKeepsAll }
    ensures all { PicksKeepAll }
{}

/// The moves of a step are computed from the order, or the neighbours between which a pick has no room.
pub fn computed_steps()
    ensures step { StepIsComputed }
    ensures alone { NoOtherStep }
    ensures refusal { NoOtherRefusal }
{}

/// New issues and moved ones keep the balance.
pub fn moves_keep_the_balance()
    ensures put { PlacesKeepTheBalance }
    ensures moved { MovesKeepTheBalance }
{}

/// From an idle balance with n issues, as a tracker may hold, the greater of 1 and n / c rounded up steps of count c end the rebalancing.
/// None of them is refused for want of room, and every rank then has nine bytes.
pub fn steps_end()
    ensures { StepsEnd }
{}
