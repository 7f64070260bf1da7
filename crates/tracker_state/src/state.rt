ghost use Rattle.std.specs.Prelude.{◌≡◌, ◌≤◌, ◌<◌, ◌+◌, length, map, slice_get, slice_set, option_map, option_and_then, IfOk, IfSome, OnOk, OnErr, Some, None};
ghost use Rattle.std.specs.List.{All};
ghost use Rattle.external_ids.specs.Ids.{external_named};
ghost use Rattle.field_forms.specs.Names.{place_named};
ghost use Rattle.tracker_limits.specs.Limits.{most_issues};
ghost use Rattle.fields.specs.Naming.{name_at};
ghost use Rattle.fields.specs.SetupParts.{parts, names_in, may};
ghost use Rattle.jql_meaning.specs.Surroundings.{surroundings_of};
ghost use Rattle.tracker_filters.specs.Watched.{AreRight, HasFilterRoom, HasIssueRoom};
ghost use Rattle.workflow.specs.Conditions.{project_number};
ghost use Rattle.tracker_work.specs.Work.{OnlyRoomGrows, HasRoomFor};
ghost use Rattle.tracker_machine.specs.Create.{issue_called};
ghost use Rattle.tracker_machine.specs.Machine.{opening};
ghost use Rattle.tracker_machine.specs.Members.{group_names};
ghost use Rattle.tracker_machine.specs.Search.{surroundings_in};
ghost use Rattle.tracker_machine.specs.Sprints.{work_of};
ghost use Rattle.tracker_machine.specs.Transition.{transition_names};
ghost use Rattle.tracker_machine.specs.Known.{project_keys, issues_of, place_of_issue};
ghost use Rattle.tracker_machine.specs.Checks.{entries_kept, bytes_kept};
ghost use Rattle.tracker_machine.specs.Tracker.{IsSettled, IsTracker};
ghost use Rattle.tracker_state.specs.State.{machine_of, saved_filters, HasSprintRoom, HaveSeen, IsBound, IsState};

use crate::found::Found;
use change_history::Issue;
use external_ids::ExternalIds;
use fields::{GroupNo, Memory, Moment, Permission, ProjectNo, Setup, SprintNo, UserNo};
use jql_bound::Context;
use rank_balancer::Balance;
use std::alloc::Global;
use std::marker::Model;
use tracker_boards::Boards;
use tracker_filters::Filters;
use tracker_issues::Issues;
use tracker_keeper::RowOp;
use tracker_ranks::Ranks;
use tracker_setting::Setting;
use tracker_work::Work;

/// The tracker's state. Contracts see it as the abstract tracker's, and beside it what there is room for.
pub struct State {
    pub(crate) setting: Setting,
    pub(crate) moment: Moment,
    pub(crate) change: u64,
    pub(crate) issues: Issues,
    pub(crate) externals: ExternalIds,
    pub(crate) ranks: Ranks,
    pub(crate) filters: Filters,
    pub(crate) boards: Boards,
    pub(crate) work: Work,
    // A list that is kept for its room.
    pub(crate) row_room: Option<Vec<RowOp>>,
}

// Written by hand, so that whoever lets one go makes one call, and its proof takes one step there.
impl Drop for State {
    fn drop(self) {
        let State {
            setting: _,
            moment: _,
            change: _,
            issues: _,
            externals: _,
            ranks: _,
            filters: _,
            boards: _,
            work: _,
            row_room: _,
        } = self;
    }
}

impl Model for State {
    ghost use Rattle.std.specs.Prelude.{map, vec_capacity};
    ghost use Rattle.jql_bound.specs.contracts.cond.Cond as cond;
    ghost use Rattle.std.specs.Coded.{codes};
    ghost use Rattle.tracker_state.specs.State.{Held, IsState, machine_of};

    ghost Value = { Held };

    ghost coded = { Prim.hlevel (codes, cond.the_row.coded) };

    ghost view = { λ s. record {
      machine = machine_of s.setting.setup s.moment s.change s.issues s.externals s.ranks s.filters
          s.boards s.work;
      room = s.issues.room;
      externals_room = s.externals.room;
      ranks_room = s.ranks.room;
      rooms = map (λ i. i.room) s.issues.kept;
      watched = s.filters;
      boards_room = s.boards.room;
      work = s.work;
      phases_room = vec_capacity s.setting.context.sprints;
    } };

    ghost invariant = { λ s.
        IsState (machine_of s.setting.setup s.moment s.change s.issues s.externals s.ranks s.filters
        s.boards s.work)
        s.issues.tally s.filters s.work s.setting.context };
}

impl State {
    /// The state of a new tracker.
    pub fn opening(alloc: Global, setup: Setup) -> Result<State, Memory>
        ensures { IfOk result (λ state. state.machine ≡ opening setup.text (parts setup)) }
    {
        let issues = Issues::new(alloc, setup.project.as_slice())?;
        let setting = Setting::of(alloc, setup)?;
        let filters = Filters::new(alloc, &setting.context, Moment::first());
        let work = Work::new(alloc, setting.setup.status.as_slice())?;
        Ok(State {
            setting,
            moment: Moment::first(),
            change: 0,
            issues,
            externals: ExternalIds::new(alloc),
            ranks: Ranks::new(alloc),
            filters,
            boards: Boards::new(alloc),
            work,
            row_room: None,
        })
    }

    /// The state whose parts are these, which agree with one another.
    pub fn of_parts(
        setting: Setting,
        moment: Moment,
        change: u64,
        issues: Issues,
        externals: ExternalIds,
        ranks: Ranks,
        filters: Filters,
        boards: Boards,
        work: Work,
    ) -> State
        requires { IsState
            (machine_of setting.setup moment change issues externals ranks filters boards work)
            issues.tally filters work setting.context }
        ensures { result.machine
            ≡ machine_of setting.setup moment change issues externals ranks filters boards work }
    {
        State {
            setting,
            moment,
            change,
            issues,
            externals,
            ranks,
            filters,
            boards,
            work,
            row_room: None,
        }
    }

    /// The setup, lent.
    pub fn setup(&self) -> &Setup
        ensures { parts result.now ≡ self.now.machine.setup }
    {
        &self.setting.setup
    }

    /// What queries ask of beside issues, lent.
    pub fn context(&self) -> &Context
        ensures { surroundings_of result.now
            ≡ surroundings_in self.now.machine.setup self.now.machine.sprints }
    {
        &self.setting.context
    }

    /// The present moment: that of the last accepted tick.
    pub fn moment(&self) -> Moment
        ensures { result ≡ self.now.machine.moment }
    {
        self.moment
    }

    /// It is a tracker's: contracts may cite what holds of each.
    pub fn is_tracker(&self)
        ensures { IsTracker self.now.machine }
    {
        let _ = self.issues.len();
    }

    /// The number of the last change group.
    pub fn change(&self) -> u64
        ensures { result ≡ self.now.machine.change }
    {
        self.change
    }

    /// The number of the next change group.
    pub fn next_change(&self) -> u64
        ensures { result ≡ self.now.machine.change + 1 }
    {
        self.change + 1
    }

    /// The user of that name, ASCII case ignored; `None` exactly where there is none.
    pub fn user_named(&self, name: &str) -> Option<UserNo>
        ensures place { option_map (λ no. no.0) result
            ≡ place_named name.now self.now.machine.setup.users }
        ensures there { IfSome result (λ no. no.0 < length self.now.machine.setup.users) }
    {
        self.setting.setup.user_named(name)
    }

    /// The project of that key, ASCII case ignored; `None` exactly where there is none.
    pub fn project_named(&self, name: &str) -> Option<ProjectNo>
        ensures place { option_map (λ no. no.0) result
            ≡ place_named name.now (project_keys self.now.machine.setup) }
        ensures there { IfSome result (λ no. no.0 < length self.now.machine.setup.project) }
    {
        self.setting.setup.project_named(name)
    }

    /// The group of that name, ASCII case ignored; `None` exactly where there is none. Groups count from 1.
    pub fn group_named(&self, name: &str) -> Option<GroupNo>
        ensures place { option_map (λ no. no.0) result
            ≡ option_map (λ place. place + 1)
            (place_named name.now (group_names self.now.machine.setup)) }
        ensures from_one { IfSome result (λ no. 1 ≤ no.0) }
        ensures there { IfSome result (λ no. no.0 ≤ length self.now.machine.setup.group) }
    {
        self.setting.setup.group_named(name)
    }

    /// The place of the transition of that name, ASCII case ignored; `None` exactly where there is none.
    pub fn transition_named(&self, name: &str) -> Option<usize>
        ensures place { result ≡ place_named name.now (transition_names self.now.machine.setup) }
        ensures there { IfSome result (λ place. place < length self.now.machine.setup.transition) }
    {
        self.setting.setup.transition_named(name)
    }

    /// Whether the user has the permission, in the project where it is one of a project.
    pub fn may(&self, user: UserNo, permission: Permission, project: Option<ProjectNo>) -> bool
        ensures { result
            ≡ may self.now.machine.setup user.0 permission (option_map (λ no. no.0) project) }
    {
        self.setting.setup.may(user, permission, project)
    }

    /// How many issues there are.
    pub fn issue_count(&self) -> usize
        ensures count { result ≡ length self.now.machine.histories }
        ensures few { result ≤ most_issues }
    {
        self.issues.len()
    }

    /// How many entries all of them have.
    pub fn entry_count(&self) -> usize
        ensures { result ≡ entries_kept self.now.machine.histories }
    {
        self.issues.entries()
    }

    /// How many text bytes all of them have, in opening values and entries.
    pub fn byte_count(&self) -> u64
        ensures { result ≡ bytes_kept self.now.machine.histories }
    {
        self.issues.bytes()
    }

    /// The issue of that key, in exact letters; `None` exactly where there is none.
    pub fn issue_named(&self, key: &str) -> Option<Found<'_>>
        ensures place { option_map (λ found. found.place) result
            ≡ place_of_issue key.now self.now.machine.histories }
        ensures issue { IfSome result (λ found.
            slice_get self.now.machine.histories found.place ≡ Some found.issue.now.history) }
        ensures settled { IfSome result (λ found. IsSettled (names_in self.now.machine.setup)
            self.now.machine.moment self.now.machine.change found.issue.now.history) }
    {
        let place = self.issues.place_of(key)?;
        let issue = self.issue_at(place)?;
        Some(Found { place, issue })
    }

    /// The issue of that external id, in exact letters; `None` exactly where there is none.
    pub fn issue_called(&self, id: &str) -> Option<&Issue>
        ensures issue { option_map (λ i. i.now.history) result
            ≡ issue_called self.now.machine (Some id.now) }
        ensures none { result ≡ None → external_named id.now self.now.machine.externals ≡ None }
    {
        let place = self.place_called(id)?;
        self.issue_at(place)
    }

    // The place of the issue of that external id.
    fn place_called(&self, id: &str) -> Option<usize>
        ensures issue { option_and_then (λ place. slice_get self.now.machine.histories place) result
            ≡ issue_called self.now.machine (Some id.now) }
        ensures there { IfSome result (λ place. place < length self.now.machine.histories) }
        ensures none { result ≡ None → external_named id.now self.now.machine.externals ≡ None }
    {
        let no = self.externals.find(id)?;
        Some(no.0 as usize - 1)
    }

    /// The external ids of issues, lent.
    pub fn externals(&self) -> &ExternalIds
        ensures ids { result.now.ids ≡ self.now.machine.externals }
        ensures room { result.now.room ≡ self.now.externals_room }
    {
        &self.externals
    }

    /// The issues by place, lent.
    pub fn issues(&self) -> &[Issue]
        ensures { map (λ i. i.history) result.now ≡ self.now.machine.histories }
    {
        self.issues.as_slice()
    }

    /// The issue at a place; `None` exactly where there is none.
    pub fn issue_at(&self, place: usize) -> Option<&Issue>
        ensures history { option_map (λ i. i.now.history) result
            ≡ slice_get self.now.machine.histories place }
        ensures settled { IfSome result (λ i. IsSettled (names_in self.now.machine.setup)
            self.now.machine.moment self.now.machine.change i.now.history) }
    {
        self.issues.get(place)
    }

    /// The project of the issue at a place, as it was noted when the issue came: its key isn't looked at.
    pub fn project_at(&self, place: usize) -> Option<ProjectNo>
        ensures { option_map (λ no. no.0) result
            ≡ option_and_then (project_number self.now.machine.setup)
            (slice_get self.now.machine.histories place) }
    {
        self.issues.project_at(place)
    }

    /// The issues by rank, and the balance of their ranks, lent.
    pub fn ranks(&self) -> &Ranks
        ensures order { result.now.order ≡ self.now.machine.order }
        ensures balance { result.now.balance ≡ self.now.machine.balance }
    {
        &self.ranks
    }

    /// The balance of the ranks.
    pub fn balance(&self) -> Balance
        ensures { result ≡ self.now.machine.balance }
    {
        self.ranks.balance()
    }

    /// The saved filters with their verdicts, lent.
    pub fn filters(&self) -> &Filters
        ensures { result.now ≡ self.now.watched }
    {
        &self.filters
    }

    /// What the verdicts have seen is the tracker as it is: contracts may cite it.
    pub fn have_seen(&self)
        ensures seen { HaveSeen self.now.machine self.now.watched }
        ensures filters { self.now.machine.filters ≡ saved_filters self.now.watched.filters }
        ensures bound { All (IsBound self.now.machine.setup) self.now.watched.filters }
    {
        self.filters.are_watched();
    }

    /// Each verdict that is kept tells whether its filter holds of the issue now, and has a later and critical end until which that
    /// stays: contracts may cite it.
    pub fn verdicts_are_right(&self)
        ensures { AreRight (surroundings_in self.now.machine.setup self.now.machine.sprints)
            self.now.machine.moment self.now.machine.histories self.now.watched.filters
            self.now.watched.views }
    {
        self.filters.are_watched();
    }

    /// The boards by number, lent.
    pub fn boards(&self) -> &Boards
        ensures boards { result.now.boards ≡ self.now.machine.boards }
        ensures room { result.now.room ≡ self.now.boards_room }
    {
        &self.boards
    }

    /// The sprints with what remains of them, lent.
    pub fn work(&self) -> &Work
        ensures seen { result.now.seen ≡ work_of self.now.machine }
        ensures same { result.now ≡ self.now.work }
    {
        &self.work
    }

    /// How many issues the project at a place has.
    pub fn count_in(&self, project: ProjectNo) -> u32
        requires { project.0 < length self.now.machine.setup.project }
        ensures count { result
            ≡ issues_of (name_at (project_keys self.now.machine.setup) project.0)
            self.now.machine.histories }
        ensures few { result ≤ most_issues }
    {
        self.issues.count_in(project)
    }

    /// The key of the project at a place, or nothing where there is none.
    pub fn project_key(&self, project: ProjectNo) -> &str
        ensures { result.now ≡ name_at (project_keys self.now.machine.setup) project.0 }
    {
        match self
            .setting
            .setup
            .project
            .as_slice()
            .get(usize::from(project.0))
        {
            Some(project) => project.key.as_str(),
            None => "",
        }
    }

    /// Makes room for one more issue, its rank and its verdicts, or leaves all as it is but for the room for ranks and for verdicts,
    /// which may have grown. There is room for as many entries as before.
    pub fn reserve_issue(&mut self) -> Result<(), Memory>
        // The tracker stays as it is.
        ensures machine { self.new.machine ≡ self.old.machine }
        // Where memory sufficed, the issue, its rank and its verdicts find room.
        ensures room { OnOk result (1 ≤ self.new.room) }
        ensures ranks { OnOk result (length self.new.machine.order < self.new.ranks_room) }
        ensures cells { OnOk result (HasIssueRoom self.new.watched) }
        // No room is lost that was there for entries and ranks.
        ensures rooms { self.new.rooms ≡ self.old.rooms }
        ensures more { self.old.ranks_room ≤ self.new.ranks_room }
        // The filters and their verdicts stay, and so do the sprints' work and the room for phases
        // and external ids.
        ensures table { self.new.watched.views.table ≡ self.old.watched.views.table }
        ensures filters { self.new.watched.filters ≡ self.old.watched.filters }
        ensures work { self.new.work ≡ self.old.work }
        ensures phases { self.new.phases_room ≡ self.old.phases_room }
        ensures externals { self.new.externals_room ≡ self.old.externals_room }
        // For want of memory nothing changes but room for ranks and verdicts.
        ensures err { OnErr result (self.new
            ≡ record self.old { ranks_room = self.new.ranks_room; watched = self.new.watched }) }
    {
        self.ranks.reserve()?;
        self.filters.reserve_issue()?;
        self.issues.reserve()
    }

    /// Makes room for one more external id, or leaves all as it is but for that room, which may have grown.
    pub fn reserve_external(&mut self) -> Result<(), Memory>
        ensures room { OnOk result (1 ≤ self.new.externals_room) }
        ensures same { self.new ≡ record self.old { externals_room = self.new.externals_room } }
    {
        self.externals.reserve()
    }

    /// Makes room for one more filter, or leaves all as it is but for that room, which may have grown.
    pub fn reserve_filter(&mut self) -> Result<(), Memory>
        ensures room { OnOk result (HasFilterRoom self.new.watched) }
        ensures same { self.new ≡ record self.old {
          watched = record self.old.watched {
            filter_room = self.new.watched.filter_room;
            views = record self.old.watched.views {
              filter_room = self.new.watched.views.filter_room;
            };
          };
        } }
    {
        self.filters.reserve_filter()
    }

    /// Makes room for one more board, or leaves all as it is.
    pub fn reserve_board(&mut self) -> Result<(), Memory>
        ensures room { OnOk result (length self.new.machine.boards < self.new.boards_room) }
        ensures same { self.new ≡ record self.old { boards_room = self.new.boards_room } }
    {
        self.boards.reserve()
    }

    /// Makes room for one more sprint, or leaves all as it is but for that room, which may have grown.
    pub fn reserve_sprint(&mut self) -> Result<(), Memory>
        ensures room { OnOk result (HasSprintRoom self.new) }
        ensures same { self.new ≡ record self.old {
          work = self.new.work;
          phases_room = self.new.phases_room;
        } }
        ensures grows { OnlyRoomGrows self.old.work self.new.work }
    {
        self.work.reserve_sprint()?;
        self.setting.reserve_phase()
    }

    /// Makes room for a change group of an issue that is in the one sprint before it, and in the other after it, or leaves all as it
    /// is but for that room, which may have grown.
    pub fn reserve_rows(
        &mut self,
        before: Option<SprintNo>,
        after: Option<SprintNo>,
    ) -> Result<(), Memory>
        ensures before { OnOk result (HasRoomFor self.new.work before) }
        ensures after { OnOk result (HasRoomFor self.new.work after) }
        ensures same { self.new ≡ record self.old { work = self.new.work } }
        ensures grows { OnlyRoomGrows self.old.work self.new.work }
    {
        self.work.reserve_group(before, after)
    }

    /// Makes room for n entries more of the issue at a place, or leaves all as it is. There is room for as many issues, and
    /// for as many entries of other issues, as before.
    pub fn reserve_entries(&mut self, place: usize, n: usize) -> Result<(), Memory>
        requires { place < length self.old.machine.histories }
        // The tracker stays as it is.
        ensures machine { self.new.machine ≡ self.old.machine }
        // Where memory sufficed, the entries find room, and other issues' entries have theirs as
        // before.
        ensures room { OnOk result (slice_get self.new.rooms place ≡ Some n) }
        ensures rooms { OnOk result (self.new.rooms ≡ slice_set self.old.rooms place n) }
        // All else stays, and so does each other room.
        ensures issues { self.new.room ≡ self.old.room }
        ensures ranks { self.new.ranks_room ≡ self.old.ranks_room }
        ensures watched { self.new.watched ≡ self.old.watched }
        ensures work { self.new.work ≡ self.old.work }
        ensures phases { self.new.phases_room ≡ self.old.phases_room }
        ensures externals { self.new.externals_room ≡ self.old.externals_room }
        // For want of memory nothing changes at all.
        ensures err { OnErr result (self.new ≡ self.old) }
    {
        self.issues.reserve_entries(place, n)
    }
}
