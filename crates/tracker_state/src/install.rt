// Plans are carried out.
ghost use Rattle.std.specs.Prelude.{◌≡◌, ◌≤◌, ◌<◌, ◌+◌, None, length, slice_get, string_bytes, IfSome};
ghost use Rattle.std.specs.List.{All};
ghost use Rattle.external_ids.specs.Ids.{external_named};
ghost use Rattle.filter_views.specs.Counts.{due};
ghost use Rattle.tracker_filters.specs.Members.{members_cost};
ghost use Rattle.tracker_work.specs.Seen.{share_now};
ghost use Rattle.tracker_machine.specs.Effect.{applied, with_external, IsAllowed};
ghost use Rattle.tracker_machine.specs.Effect.Effect.{NewMoment, NewIssue, NewGroup, NewRank, NewBalance, NewRanks, NewSprint, NewState, NewFilter, NoFilter, NewBoard, NoBoard, NewMembers};
ghost use Rattle.tracker_machine.specs.SprintRules.{phase_of, sum_in_sprint};
ghost use Rattle.tracker_state.specs.Plan.{id_of, effect_of, cost_of, IssueFits, GroupFits, FilterFits, Fits};
ghost use Rattle.tracker_state.specs.State.{saved_as, HasSprintRoom};

use crate::plan::{GroupPlan, IssuePlan, MembersPlan, NewExternal, Plan, RankPlan};
use crate::state::State;
use board::Board;
use burndown::Share;
use external_ids::{ExternalId, ExternalIds};
use fields::{BoardNo, FilterNo, IssueNo, Moment, SprintNo, Steps, Text};
use jql_bound::Phase;
use rank_balancer::{Balance, StepPlan};
use sprints::SprintState;
use std::sync::ledger::Ledger;
use tracker_filters::ReadyFilter;
use tracker_issues::Issues;
use tracker_work::Work;

impl State {
    /// Carries out a plan that was made for this state. It takes no memory, and can't fail. Of a new or a changed issue, and of each
    /// issue in a sprint that starts or is closed, each filter is asked once, as a group comes to other members each filter that asks for
    /// members, of each issue, and as time moves on each verdict that has come to its end.
    pub fn install<L: Ledger>(&mut self, plan: Plan, steps: &mut Steps<L>)
        requires fits { Fits self.old plan }
        requires allowed { IsAllowed (effect_of plan) self.old.machine }
        ensures machine { self.new.machine ≡ applied (effect_of plan) self.old.machine }
        ensures steps { steps.new ≡ steps.old + cost_of plan self.old }
    {
        match plan {
            Plan::Moment(to) => self.set_moment(to, steps),
            Plan::Issue(new) => self.push(new, steps),
            Plan::Group(new) => self.add(new, steps),
            Plan::Rank(new) => self.set_rank(new),
            Plan::Balance(balance) => self.start(balance),
            Plan::Step(moves) => self.step(moves),
            Plan::Sprint(name) => self.make_sprint(name),
            Plan::State { sprint, state } => self.turn(sprint, state, steps),
            Plan::Save(ready) => self.save(ready),
            Plan::DropFilter(no) => self.drop_filter(no),
            Plan::Board(board) => self.put_board(board),
            Plan::DropBoard(no) => self.drop_board(no),
            Plan::Members(new) => self.regroup(new, steps),
        }
    }

    // Sets the present moment.
    #[tactic(auto, unfolding(tracker_machine::specs::Effect::applied, tracker_machine::specs::Effect::IsAllowed))]
    fn set_moment<L: Ledger>(&mut self, to: Moment, steps: &mut Steps<L>)
        requires { IsAllowed (NewMoment to) self.old.machine }
        ensures machine { self.new.machine ≡ applied (NewMoment to) self.old.machine }
        ensures steps { steps.new ≡ steps.old + due self.old.watched.views to }
    {
        let issues = self.issues.as_slice();
        self.filters
            .see_moment(issues, &self.setting.context, to, steps);
        self.moment = to;
    }

    // Puts a new issue at the end.
    #[tactic(auto, unfolding(tracker_machine::specs::Effect::applied, tracker_machine::specs::Effect::IsAllowed))]
    fn push<L: Ledger>(&mut self, new: IssuePlan, steps: &mut Steps<L>)
        requires fits { IssueFits self.old new }
        requires allowed { IsAllowed (NewIssue new.issue.history new.rank (id_of new.external))
            self.old.machine }
        ensures machine { self.new.machine
            ≡ applied (NewIssue new.issue.history new.rank (id_of new.external)) self.old.machine }
        ensures steps { steps.new ≡ steps.old + length self.old.watched.filters }
    {
        self.change += 1;
        put_external(&mut self.externals, new.issue.no(), new.external);
        self.ranks.add(new.issue.no(), new.rank);
        self.filters
            .see_new(&new.issue, &self.setting.context, self.moment, steps);
        self.issues.push(new.project, new.key, new.issue, new.bytes);
        self.work.see_issue(self.issues.as_vec());
    }

    // Adds a group to the issue at its place.
    #[tactic(auto, unfolding(tracker_machine::specs::Effect::applied, tracker_machine::specs::Effect::IsAllowed))]
    fn add<L: Ledger>(&mut self, new: GroupPlan, steps: &mut Steps<L>)
        requires fits { GroupFits self.old new }
        requires allowed { IsAllowed (NewGroup new.place new.group) self.old.machine }
        ensures machine { self.new.machine
            ≡ applied (NewGroup new.place new.group) self.old.machine }
        ensures steps { steps.new ≡ steps.old + length self.old.watched.filters }
    {
        self.change += 1;
        let before = share_at(&self.issues, &self.work, new.place);
        self.issues.add(new.place, new.group, new.bytes);
        let issue = self.issues.at(new.place);
        self.filters
            .see_change(issue, &self.setting.context, self.moment, steps);
        self.work.see_group(
            self.issues.as_vec(),
            new.place,
            before,
            self.change,
            self.moment,
        );
    }

    // Gives an issue another rank.
    #[tactic(auto, unfolding(tracker_machine::specs::Effect::applied, tracker_machine::specs::Effect::IsAllowed))]
    fn set_rank(&mut self, new: RankPlan)
        requires { IsAllowed (NewRank new.issue new.rank) self.old.machine }
        ensures { self.new.machine ≡ applied (NewRank new.issue new.rank) self.old.machine }
    {
        self.ranks.set(new.issue, new.rank);
    }

    // Begins a rebalancing, which leads to this balance.
    #[tactic(auto, unfolding(tracker_machine::specs::Effect::applied, tracker_machine::specs::Effect::IsAllowed))]
    fn start(&mut self, balance: Balance)
        requires { IsAllowed (NewBalance balance) self.old.machine }
        ensures { self.new.machine ≡ applied (NewBalance balance) self.old.machine }
    {
        let _ = balance;
        let Ok(()) = self.ranks.start() else {
            unreachable!()
        };
    }

    // Makes the moves of a step.
    #[tactic(auto, unfolding(tracker_machine::specs::Effect::applied, tracker_machine::specs::Effect::IsAllowed))]
    fn step(&mut self, moves: StepPlan)
        requires { IsAllowed (NewRanks moves) self.old.machine }
        ensures { self.new.machine ≡ applied (NewRanks moves) self.old.machine }
    {
        self.ranks.apply(moves);
    }

    // Makes a future sprint.
    #[tactic(auto, unfolding(tracker_machine::specs::Effect::applied, tracker_machine::specs::Effect::IsAllowed))]
    fn make_sprint(&mut self, name: Text)
        requires fits { HasSprintRoom self.old }
        requires allowed { IsAllowed (NewSprint name) self.old.machine }
        ensures { self.new.machine ≡ applied (NewSprint name) self.old.machine }
    {
        let Ok(_) = self.work.make(name) else {
            unreachable!()
        };
        self.setting.add_phase();
        self.filters.see_new_sprint(&self.setting.context);
    }

    // Starts or closes a sprint, which comes to this state: each filter is asked once of each issue in it.
    #[tactic(auto, unfolding(tracker_machine::specs::Effect::applied, tracker_machine::specs::Effect::IsAllowed))]
    fn turn<L: Ledger>(&mut self, sprint: SprintNo, state: SprintState, steps: &mut Steps<L>)
        requires { IsAllowed (NewState sprint state) self.old.machine }
        ensures machine { self.new.machine ≡ applied (NewState sprint state) self.old.machine }
        ensures steps { steps.new ≡ steps.old
            + sum_in_sprint (length self.old.watched.filters) sprint.0 self.old.machine.histories }
    {
        self.work.turn(sprint, state);
        self.setting.set_phase(sprint, phase_of(&state));
        self.filters.see_sprint(
            sprint,
            self.issues.as_slice(),
            &self.setting.context,
            self.moment,
            steps,
        );
    }

    // Saves a filter with its verdicts.
    #[tactic(auto, unfolding(tracker_machine::specs::Effect::applied, tracker_machine::specs::Effect::IsAllowed))]
    fn save(&mut self, ready: ReadyFilter)
        requires fits { FilterFits self.old ready }
        requires allowed { IsAllowed (NewFilter (saved_as ready.filter)) self.old.machine }
        ensures { self.new.machine ≡ applied (NewFilter (saved_as ready.filter)) self.old.machine }
    {
        self.filters.put(ready);
    }

    // Takes a filter away, and its boards.
    #[tactic(auto, unfolding(tracker_machine::specs::Effect::applied, tracker_machine::specs::Effect::IsAllowed))]
    fn drop_filter(&mut self, no: FilterNo)
        requires { IsAllowed (NoFilter no) self.old.machine }
        ensures { self.new.machine ≡ applied (NoFilter no) self.old.machine }
    {
        self.filters.remove(no);
        self.boards.remove_of(no);
    }

    // Puts a new board in.
    #[tactic(auto, unfolding(tracker_machine::specs::Effect::applied, tracker_machine::specs::Effect::IsAllowed))]
    fn put_board(&mut self, board: Board)
        requires room { length self.old.machine.boards < self.old.boards_room }
        requires allowed { IsAllowed (NewBoard board) self.old.machine }
        ensures { self.new.machine ≡ applied (NewBoard board) self.old.machine }
    {
        self.boards.put(board);
    }

    // Takes a board away.
    #[tactic(auto, unfolding(tracker_machine::specs::Effect::applied, tracker_machine::specs::Effect::IsAllowed))]
    fn drop_board(&mut self, no: BoardNo)
        requires { IsAllowed (NoBoard no) self.old.machine }
        ensures { self.new.machine ≡ applied (NoBoard no) self.old.machine }
    {
        self.boards.remove(no);
    }

    // Gives a group other members: each filter that asks for members is asked once of each issue.
    #[tactic(auto, unfolding(tracker_machine::specs::Effect::applied, tracker_machine::specs::Effect::IsAllowed))]
    fn regroup<L: Ledger>(&mut self, new: MembersPlan, steps: &mut Steps<L>)
        requires same { new.asked ≡ new.members }
        requires allowed { IsAllowed (NewMembers new.group new.members) self.old.machine }
        ensures machine { self.new.machine
            ≡ applied (NewMembers new.group new.members) self.old.machine }
        ensures steps { steps.new ≡ steps.old
            + members_cost self.old.watched.filters (length self.old.machine.histories) }
    {
        self.setting.set_members(new.group, new.members, new.asked);
        self.filters.see_members(
            self.issues.as_slice(),
            &self.setting.context,
            self.moment,
            steps,
        );
    }
}

// Has the external id of a new issue lead to it, if it has one.
fn put_external(externals: &mut ExternalIds, issue: IssueNo, external: Option<NewExternal>)
    // The text is that of the id, for which there is room and which no issue has.
    requires same { IfSome external (λ e. string_bytes e.text ≡ e.id) }
    requires room { IfSome external (λ e. 1 ≤ externals.old.room) }
    requires free { IfSome external (λ e. external_named e.id externals.old.ids ≡ None) }
    // The issue comes after all that have one.
    requires last { All (λ e. e.no.0 < issue.0) externals.old.ids }
    requires positive { 1 ≤ issue.0 }
    // Then it leads to the new issue, where one is given.
    ensures { externals.new.ids ≡ with_external externals.old.ids issue (id_of external) }
{
    if let Some(NewExternal { id, text }) = external {
        externals.add(ExternalId { no: issue, id }, text);
    }
}

// What the issue at a place counts for.
fn share_at(issues: &Issues, work: &Work, place: usize) -> Share
    requires { place < length issues.now.kept }
    ensures { IfSome (slice_get issues.now.kept place) (λ i.
        result ≡ share_now work.now.seen i.history) }
{
    work.share(issues.at(place))
}

/// How far a sprint of this state is.
pub fn phase_of(state: &SprintState) -> Phase
    ensures { result ≡ phase_of state.now }
{
    match *state {
        SprintState::Future => Phase::Future,
        SprintState::Active { .. } => Phase::Active,
        SprintState::Closed { .. } => Phase::Closed,
    }
}
