//! All issues of a tracker by rank.
ghost use Rattle.std.specs.Prelude.{◌≡◌, ◌≤◌, ◌<◌, ◌+◌, [], None, Some, Ok, length, IfOk, OnOk, OnErr, MatchResult};
ghost use Rattle.std.specs.Option.{option_copied};
ghost use Rattle.board.specs.Order.{place_in, rank_in, longest_in};
ghost use Rattle.board.specs.Moved.{IsRefusalOf};
ghost use Rattle.rank_balancer.specs.declared.balance.Balance.TheVariants.{Idle};
ghost use Rattle.rank_balancer.specs.Balance.{IsMoving, after_start, from_of, to_of};
ghost use Rattle.rank_balancer.specs.Step.{ArePicks, IsStep, after_move, after_moves, ranks_left};
ghost use Rattle.rank_balancer.specs.Planned.{planned};
ghost use Rattle.tracker_ranks.specs.Ranked.{IsRanked, AreNumbered, IsGiven, IsNext, rank_for, with_last, balance_moved};

use board::{Order, Place};
use field_values::{IssueNo, Memory};
use rank_balancer::{Balance, BalanceIs, StepPlan, apply, left, plan_step};
use rank_strings::{Rank, RankFault};
use std::alloc::Global;
use std::marker::Model;

/// All issues by rank, numbered from 1, and the balance of their ranks.
///
/// Contracts see the list of pairs of a rank and an issue, the balance, and for how many issues there is room.
#[derive(Drop)]
pub struct Ranks {
    order: Order,
    balance: Balance,
    alloc: Global,
}

impl Model for Ranks {
    ghost use Rattle.tracker_ranks.specs.Ranked.{OrderedIssues, IsRanked};

    ghost Value = { OrderedIssues };

    ghost view = { λ r. record { order = r.order.pairs; balance = r.balance; room = r.order.room } };

    ghost invariant = { λ r. IsRanked r.order.pairs r.balance };
}

impl Ranks {
    /// No issue, and a balance at rest in bucket 0.
    pub fn new(alloc: Global) -> Ranks
        ensures { result ≡ record { order = []; balance = Idle 0; room = 0 } }
    {
        Ranks {
            order: Order::empty(alloc),
            balance: Balance::Idle(0),
            alloc,
        }
    }

    /// Those of an order and a balance.
    pub(crate) fn of(alloc: Global, order: Order, balance: Balance) -> Ranks
        requires { IsRanked order.pairs balance }
        ensures { result ≡ record { order = order.pairs; balance = balance; room = order.room } }
    {
        Ranks {
            order,
            balance,
            alloc,
        }
    }

    /// How many issues there are.
    pub fn len(&self) -> usize
        ensures { result ≡ length self.now.order }
    {
        self.order.len()
    }

    /// The order, lent.
    pub fn order(&self) -> &Order
        ensures order { result.now.pairs ≡ self.now.order }
        ensures ranked { IsRanked self.now.order self.now.balance }
    {
        &self.order
    }

    /// The balance.
    pub fn balance(&self) -> Balance
        ensures { result ≡ self.now.balance }
    {
        self.balance
    }

    /// The issue's place from 0, which is the top of a board, found by halving; `None` exactly where there is no such issue.
    pub fn place_of(&self, issue: IssueNo) -> Option<usize>
        ensures { result ≡ place_in self.now.order issue.0 }
    {
        self.order.place_of(issue)
    }

    /// The issue's rank; `None` exactly where there is no such issue.
    pub fn rank_of(&self, issue: IssueNo) -> Option<&Rank>
        ensures { option_copied result ≡ rank_in self.now.order issue.0 }
    {
        self.order.rank_of(issue)
    }

    /// The bytes of the longest rank's text, 0 where there is none.
    pub fn longest(&self) -> usize
        ensures { result ≡ longest_in self.now.order }
    {
        self.order.longest()
    }

    /// How many ranks are still in the bucket that the balance leaves; 0 where it is at rest.
    pub fn left(&self) -> usize
        ensures { result ≡ ranks_left self.now.order self.now.balance }
    {
        left(&self.order, &self.balance)
    }

    /// Makes room for one issue more, or leaves the room as it is. All else stays.
    pub fn reserve(&mut self) -> Result<(), Memory>
        ensures room { OnOk result (length self.old.order < self.new.room) }
        ensures more { self.old.room ≤ self.new.room }
        ensures err { OnErr result (self.new ≡ self.old) }
        ensures same { self.new ≡ record self.old { room = self.new.room } }
    {
        self.order.reserve(1)
    }

    /// The rank that puts the issue to the place, or a new issue where it is `None`.
    ///
    /// Where the issue stands just there, it is the rank that it has. `Exhausted` comes exactly where it doesn't, and no rank
    /// lies between the neighbours that decide, with these.
    pub fn rank_for(&self, issue: Option<IssueNo>, place: Place) -> Result<Rank, RankFault>
        requires { AreNumbered (length self.now.order) issue place }
        ensures { MatchResult result
            (λ rank. rank_for self.now.order self.now.balance issue place ≡ Ok rank)
            (IsRefusalOf (rank_for self.now.order self.now.balance issue place)) }
    {
        let empty_bucket = self.balance.empty_bucket();
        self.order.rank_for(issue, place, empty_bucket)
    }

    /// Puts the next issue behind all others, with the rank that was given for it. It takes no memory.
    pub fn add(&mut self, next: IssueNo, rank: Rank)
        requires given { IsNext self.old.order self.old.balance next rank }
        requires room { length self.old.order < self.old.room }
        ensures { self.new ≡ record self.old { order = with_last self.old.order next rank } }
    {
        self.order.put(next, rank);
    }

    /// Moves the issue by a rank that was given to it. It takes no memory.
    pub fn set(&mut self, issue: IssueNo, rank: Rank)
        requires { IsGiven self.old.order self.old.balance issue rank }
        ensures { self.new ≡ record self.old { order = after_move self.old.order (issue, rank) } }
    {
        self.order.put(issue, rank);
    }

    /// Starts a rebalancing. `BalanceIs` comes exactly where one is under way, with the balance, and all stays.
    pub fn start(&mut self) -> Result<(), BalanceIs>
        ensures { MatchResult result
            (λ _. (after_start self.old.balance ≡ Some self.new.balance)
            × (self.new ≡ record self.old { balance = self.new.balance }))
            (λ kept. (after_start self.old.balance ≡ None)
            × (kept.0 ≡ self.old.balance) × (self.new ≡ self.old)) }
    {
        self.balance.start()
    }

    /// Plans a step of so many picks at most, and changes nothing. `Exhausted` comes exactly where one of them has no room,
    /// with its neighbour.
    pub fn plan_step(&self, at_most: u32) -> Result<StepPlan, RankFault>
        requires moving { IsMoving self.now.balance }
        requires count { (1 ≤ at_most) × (at_most ≤ 1000) }
        ensures step { IfOk result
            (IsStep self.now.order (from_of self.now.balance) (to_of self.now.balance) at_most) }
        ensures computed { let plan =
            planned self.now.order (from_of self.now.balance) (to_of self.now.balance) at_most in
            MatchResult result (λ moves. plan ≡ Ok moves) (IsRefusalOf plan) }
    {
        plan_step(self.alloc, &self.order, &self.balance, at_most)
    }

    /// Makes the moves of a step. The balance comes to rest exactly where no rank of the old bucket is left. It takes no memory.
    pub fn apply(&mut self, plan: StepPlan)
        requires moving { IsMoving self.old.balance }
        requires picks { ArePicks self.old.order (from_of self.old.balance)
            (to_of self.old.balance) plan }
        ensures { self.new ≡ record self.old {
          order = after_moves self.old.order plan;
          balance = balance_moved self.old.order self.old.balance plan;
        } }
    {
        apply(plan, &mut self.order, &mut self.balance);
    }
}
