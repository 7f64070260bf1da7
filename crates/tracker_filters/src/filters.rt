//! The saved filters of a tracker with their verdicts.
ghost use Rattle.std.specs.Prelude.{◌≡◌, ◌≢◌, ◌≤◌, ◌<◌, ◌+◌, ◌-◌, ◌++◌, ◌∷◌, [], None, length, map, slice_set, OnOk, OnErr, IfSome};
ghost use Rattle.std.specs.Option.{option_copied};
ghost use Rattle.jql_meaning.specs.Surroundings.{surroundings_of, numbered};
ghost use Rattle.jql_meaning.specs.Truth.{query_holds};
ghost use Rattle.jql_meaning.specs.Sprints.{DifferInOneSprint};
ghost use Rattle.filter_views.specs.FilterRow.{HasNumber};
ghost use Rattle.filter_views.specs.Counts.{due};
ghost use Rattle.rising_numbers.specs.ByNumber.{by_number, put_by_number, without_number, free_from};
ghost use Rattle.tracker_filters.specs.Saved.{number, condition_of, by_owner, AreSaved, MayPut};
ghost use Rattle.change_history.specs.History.{histories_of};
ghost use Rattle.tracker_filters.specs.Watched.{HasFilterRoom, HasIssueRoom, AreWatched, holders_from};
ghost use Rattle.tracker_filters.specs.Ready.{AreVerdicts};
ghost use Rattle.tracker_filters.specs.Sprint.{AreNumbered, DifferInEmptySprint, HoldOneSprint, sprint_cost};
ghost use Rattle.tracker_filters.specs.Members.{DifferInMembers, members_cost};

use crate::cells::{put_row, settle_filter, settle_issue};
use crate::due::catch_up;
use crate::filter::Filter;
use crate::lookup::find_named;
use crate::members::settle_members;
use crate::ready::ReadyFilter;
use crate::sprint::settle_sprint;
use change_history::Issue;
use field_values::{FilterNo, IssueNo, Memory, Moment, SprintNo, Steps, UserNo};
use filter_views::FilterViews;
use jql_bound::Context;
use rising_numbers::{find, free_number, take_out};
use std::alloc::Global;
use std::marker::Model;
use std::snapshot::Snapshot;
use std::sync::ledger::Ledger;

/// The saved filters by number, and for each of them whether it holds of each issue, and until when.
///
/// Contracts see them beside what the verdicts have seen: the issues' histories, what decides beside these, and the moment. Of that
/// nothing is kept when the program runs: a `Snapshot` has no bytes.
#[derive(Drop)]
pub struct Filters {
    list: Vec<Filter>,
    views: FilterViews,
    // The issues that the cells have seen, by number, and what decided beside them then.
    seen: Vec<Snapshot<Issue>>,
    around: Snapshot<Context>,
    moment: Snapshot<Moment>,
}

impl Model for Filters {
    ghost use Rattle.std.specs.Prelude.{vec_capacity};
    ghost use Rattle.jql_meaning.specs.Surroundings.{surroundings_of};
    ghost use Rattle.jql_bound.specs.contracts.cond.Cond as cond;
    ghost use Rattle.std.specs.Coded.{codes};
    ghost use Rattle.tracker_filters.specs.Watched.{WatchedFilters, AreWatched, histories_in};

    ghost Value = { WatchedFilters };

    ghost coded = { Prim.hlevel (codes, cond.the_row.coded) };

    ghost view = { λ w. record {
      filters = w.list.items;
      views = w.views;
      filter_room = vec_capacity w.list;
      issue_room = vec_capacity w.seen;
      histories = histories_in w.seen.items;
      around = surroundings_of w.around.value;
      moment = w.moment.value;
    } };

    ghost invariant = { λ w. AreWatched w.list.items w.views (histories_in w.seen.items)
        (surroundings_of w.around.value) w.moment.value };
}

impl Filters {
    /// No filter, over no issue.
    pub fn new(alloc: Global, context: &Context, at: Moment) -> Filters
        ensures filters { result.filters ≡ [] }
        ensures histories { result.histories ≡ [] }
        ensures around { result.around ≡ surroundings_of context.now }
        ensures moment { result.moment ≡ at }
    {
        Filters {
            list: Vec::new(alloc),
            views: FilterViews::empty(alloc),
            seen: Vec::new(alloc),
            around: Snapshot::of(context),
            moment: Snapshot::of(&at),
        }
    }

    /// The filters by number, lent.
    pub fn as_slice(&self) -> &[Filter]
        ensures filters { result.now ≡ self.now.filters }
        ensures saved { AreSaved self.now.filters }
    {
        self.list.as_slice()
    }

    /// What holds of the filters and their cells: contracts may cite it.
    pub fn are_watched(&self)
        ensures { AreWatched self.now.filters self.now.views
            self.now.histories self.now.around self.now.moment }
    {
        let _ = self.list.len();
    }

    /// How many filters there are.
    pub fn len(&self) -> usize
        ensures { result ≡ length self.now.filters }
    {
        self.list.len()
    }

    /// The filter of that number; `None` exactly where there is none.
    pub fn get(&self, no: FilterNo) -> Option<&Filter>
        ensures { option_copied result ≡ by_number number no.0 self.now.filters }
    {
        find(&self.list, no.0)
    }

    /// The user's filter of that name; `None` exactly where there is none.
    pub fn named(&self, owner: UserNo, name: &str) -> Option<&Filter>
        ensures { option_copied result ≡ by_owner owner name.now self.now.filters }
    {
        find_named(&self.list, owner, name)
    }

    /// The least number from 1 on that no filter has.
    pub fn free_number(&self) -> FilterNo
        ensures { result.0 ≡ free_from number 1 self.now.filters }
    {
        FilterNo(free_number(&self.list))
    }

    /// Whether the filter holds of the issue, as its cell says.
    pub fn holds(&self, no: FilterNo, issue: IssueNo) -> bool
        ensures { IfSome (by_number number no.0 self.now.filters) (λ f.
            IfSome (numbered self.now.histories issue.0) (λ h.
            result ≡ query_holds self.now.around h self.now.moment (condition_of f))) }
    {
        self.views.holds(no, issue)
    }

    /// Puts the issues of which the filter holds, by number, in place of what `room` contained, or leaves it as it is. They are read
    /// from the cells.
    pub fn members(&self, no: FilterNo, room: &mut Vec<IssueNo>) -> Result<(), Memory>
        ensures ok { OnOk result (IfSome (by_number number no.0 self.now.filters) (λ f.
            room.new.items ≡ holders_from 1 self.now.around self.now.moment
            (condition_of f) self.now.histories)) }
        ensures err { OnErr result (room.new.items ≡ room.old.items) }
    {
        self.views.members(no, room)
    }

    /// Makes room for one filter more, or leaves all but the room as it is.
    pub fn reserve_filter(&mut self) -> Result<(), Memory>
        ensures room { OnOk result (HasFilterRoom self.new) }
        ensures same { self.new ≡ record self.old {
          filter_room = self.new.filter_room;
          views = record self.old.views { filter_room = self.new.views.filter_room };
        } }
    {
        self.list.reserve(1)?;
        self.views.reserve_filter()
    }

    /// Makes room for one issue more, or leaves all but the room as it is.
    pub fn reserve_issue(&mut self) -> Result<(), Memory>
        ensures room { OnOk result (HasIssueRoom self.new) }
        ensures same { self.new ≡ record self.old {
          issue_room = self.new.issue_room;
          views = record self.old.views { issue_room = self.new.views.issue_room };
        } }
    {
        self.seen.reserve(1)?;
        self.views.reserve_issue()
    }

    /// Puts a filter in that is ready, or in the place of the one of its number. It takes no memory.
    pub fn put(&mut self, ready: ReadyFilter)
        // It has a name that its owner gave to no other filter, there is room for it, and its
        // verdicts are right.
        requires may { MayPut self.old.filters ready.filter }
        requires room { by_number number ready.filter.no.0 self.old.filters ≡ None →
            HasFilterRoom self.old }
        requires right { AreVerdicts self.old.around self.old.moment (condition_of ready.filter)
            self.old.histories ready.verdicts.items }
        // It stands by its number.
        ensures filters { self.new.filters ≡ put_by_number number ready.filter self.old.filters }
        // What the filters have seen stays, so all other cells are as right as before.
        ensures histories { self.new.histories ≡ self.old.histories }
        ensures around { self.new.around ≡ self.old.around }
        ensures moment { self.new.moment ≡ self.old.moment }
    {
        let (filter, verdicts) = ready.into_parts();
        let no = filter.no;
        put_row(&mut self.list, &mut self.views, filter);
        settle_filter(&mut self.views, no, &verdicts);
    }

    /// Takes a filter away. It takes no memory.
    pub fn remove(&mut self, no: FilterNo)
        requires { by_number number no.0 self.old.filters ≢ None }
        ensures filters { self.new.filters ≡ without_number number no.0 self.old.filters }
        ensures histories { self.new.histories ≡ self.old.histories }
        ensures around { self.new.around ≡ self.old.around }
        ensures moment { self.new.moment ≡ self.old.moment }
    {
        take_out(&mut self.list, no.0);
        self.views.remove_filter(no);
    }

    /// Sees a new issue: each filter is asked once whether it holds of it. It takes no memory.
    pub fn see_new<L: Ledger>(
        &mut self,
        issue: &Issue,
        context: &Context,
        at: Moment,
        steps: &mut Steps<L>,
    )
        // The issue has the next number, and room was made for it.
        requires next { issue.now.history.no.0 ≡ length self.old.histories + 1 }
        requires room { HasIssueRoom self.old }
        // Nothing else has changed since the filters looked last.
        requires around { surroundings_of context.now ≡ self.old.around }
        requires moment { at ≡ self.old.moment }
        // They have seen the issue now, and all else as before.
        ensures filters { self.new.filters ≡ self.old.filters }
        ensures histories { self.new.histories ≡ self.old.histories ++ issue.now.history ∷ [] }
        ensures around { self.new.around ≡ self.old.around }
        ensures moment { self.new.moment ≡ self.old.moment }
        // It costs one question for each filter.
        ensures steps { steps.new ≡ steps.old + length self.old.filters }
    {
        self.seen.push_reserved(Snapshot::of(issue));
        self.views.add_issue(issue.no());
        settle_issue(&mut self.views, &self.list, issue, context, at, steps);
    }

    /// Sees an issue that has changed: each filter is asked once whether it holds of it, and no other issue's cells change. It takes
    /// no memory.
    pub fn see_change<L: Ledger>(
        &mut self,
        issue: &Issue,
        context: &Context,
        at: Moment,
        steps: &mut Steps<L>,
    )
        // The issue is one that the filters have seen.
        requires there { HasNumber issue.now.history.no.0 (length self.old.histories) }
        // Nothing else has changed since the filters looked last.
        requires around { surroundings_of context.now ≡ self.old.around }
        requires moment { at ≡ self.old.moment }
        // They have seen the issue as it is now, and all else as before.
        ensures filters { self.new.filters ≡ self.old.filters }
        ensures histories { self.new.histories ≡
            slice_set self.old.histories (issue.now.history.no.0 - 1) issue.now.history }
        ensures around { self.new.around ≡ self.old.around }
        ensures moment { self.new.moment ≡ self.old.moment }
        // It costs one question for each filter.
        ensures steps { steps.new ≡ steps.old + length self.old.filters }
    {
        self.seen[issue.no().0 as usize - 1] = Snapshot::of(issue);
        settle_issue(&mut self.views, &self.list, issue, context, at, steps);
    }

    /// Sees a later moment: the cells whose end has come are asked again, each once, and no other. It takes no memory.
    pub fn see_moment<L: Ledger>(
        &mut self,
        issues: &[Issue],
        context: &Context,
        to: Moment,
        steps: &mut Steps<L>,
    )
        // Nothing but time has passed since the filters looked last.
        requires issues { histories_of issues.now ≡ self.old.histories }
        requires around { surroundings_of context.now ≡ self.old.around }
        requires later { self.old.moment ≤ to }
        // They have seen the later moment now, and all else as before.
        ensures filters { self.new.filters ≡ self.old.filters }
        ensures histories { self.new.histories ≡ self.old.histories }
        ensures around { self.new.around ≡ self.old.around }
        ensures moment { self.new.moment ≡ to }
        // It costs one question for each cell that was due then.
        ensures steps { steps.new ≡ steps.old + due self.old.views to }
    {
        catch_up(&mut self.views, &self.list, issues, context, to, steps);
        self.moment = Snapshot::of(&to);
    }

    /// Sees that a sprint has come, which no issue is in: no filter is asked, and no cell changes. It takes no memory.
    pub fn see_new_sprint(&mut self, context: &Context)
        requires { DifferInEmptySprint self.old.around
            (surroundings_of context.now) self.old.histories }
        ensures { self.new ≡ record self.old { around = surroundings_of context.now } }
    {
        self.around = Snapshot::of(context);
    }

    /// Sees that a sprint has come to another phase: each filter is asked once whether it holds of each issue in that
    /// sprint, and of no other issue. It takes no memory.
    pub fn see_sprint<L: Ledger>(
        &mut self,
        sprint: SprintNo,
        issues: &[Issue],
        context: &Context,
        at: Moment,
        steps: &mut Steps<L>,
    )
        // Nothing but that sprint's phase has changed since the filters looked last, and only
        // issues that hold the sprint in their field can tell.
        requires differ { DifferInOneSprint self.old.around (surroundings_of context.now) sprint }
        requires issues { histories_of issues.now ≡ self.old.histories }
        requires numbered { AreNumbered self.old.histories }
        requires hold { HoldOneSprint self.old.histories sprint }
        requires moment { at ≡ self.old.moment }
        // They have seen the phase now, and all else as before.
        ensures filters { self.new.filters ≡ self.old.filters }
        ensures histories { self.new.histories ≡ self.old.histories }
        ensures around { self.new.around ≡ surroundings_of context.now }
        ensures moment { self.new.moment ≡ self.old.moment }
        // It costs one question for each filter and each issue in the sprint.
        ensures steps { steps.new ≡ steps.old
            + sprint_cost (length self.old.filters) sprint.0 self.old.histories }
    {
        settle_sprint(
            &mut self.views,
            &self.list,
            issues,
            sprint,
            context,
            at,
            steps,
        );
        self.around = Snapshot::of(context);
    }

    /// Sees that groups have come to other members: each filter that asks for members is asked once whether it holds of
    /// each issue, and no other filter is asked. It takes no memory.
    pub fn see_members<L: Ledger>(
        &mut self,
        issues: &[Issue],
        context: &Context,
        at: Moment,
        steps: &mut Steps<L>,
    )
        // Nothing but members of groups has changed since the filters looked last.
        requires differ { DifferInMembers self.old.around (surroundings_of context.now) }
        requires issues { histories_of issues.now ≡ self.old.histories }
        requires moment { at ≡ self.old.moment }
        // They have seen the members now, and all else as before.
        ensures filters { self.new.filters ≡ self.old.filters }
        ensures histories { self.new.histories ≡ self.old.histories }
        ensures around { self.new.around ≡ surroundings_of context.now }
        ensures moment { self.new.moment ≡ self.old.moment }
        // It costs one question for each issue and each filter that asks for members.
        ensures steps { steps.new ≡ steps.old
            + members_cost self.old.filters (length self.old.histories) }
    {
        settle_members(&mut self.views, &self.list, issues, context, at, steps);
        self.around = Snapshot::of(context);
    }
}
