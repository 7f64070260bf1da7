//! A tracker in the making: what the rows that were read have told of it.
ghost use Rattle.std.specs.Prelude.{◌≡◌, IfOk};
ghost use Rattle.fields.specs.SetupParts.{parts};
ghost use Rattle.tracker_rows.specs.Gathered.{standing};
ghost use Rattle.tracker_loading.specs.Assembled.{made_with, IsWhole};

use crate::parts::{Base, Given};
use external_ids::ExternalIds;
use field_values::{Memory, Moment};
use fields::Setup;
use rank_balancer::Balance;
use rank_strings::Rank;
use sprints::Sprints;
use std::alloc::Global;
use std::collections::BTreeSet;
use std::marker::Model;
use tracker_boards::Boards;
use tracker_filters::Filter;
use tracker_issues::Issues;

/// A tracker in the making. Contracts see it as the abstract tracker's state so far.
pub(crate) struct Making {
    pub(crate) setup: Setup,
    pub(crate) balance: Balance,
    pub(crate) change: u64,
    pub(crate) moment: Moment,
    pub(crate) issues: Issues,
    pub(crate) externals: ExternalIds,
    /// By the issues' numbers.
    pub(crate) ranks: Vec<Rank>,
    pub(crate) sprints: Sprints,
    /// By number.
    pub(crate) filters: Vec<Filter>,
    pub(crate) boards: Boards,
    // The ranks once more, by their order.
    pub(crate) taken: BTreeSet<Rank>,
    // The moment of the last change group.
    pub(crate) group_at: Moment,
}

// Written by hand, so that whoever lets one go makes one call, and its proof takes one step there.
impl Drop for Making {
    fn drop(self) {
        let Making {
            setup: _,
            balance: _,
            change: _,
            moment: _,
            issues: _,
            externals: _,
            ranks: _,
            sprints: _,
            filters: _,
            boards: _,
            taken: _,
            group_at: _,
        } = self;
    }
}

impl Model for Making {
    ghost use Rattle.std.specs.BTreeSet.{keys};
    ghost use Rattle.tracker_loading.specs.Making.{made_of, IsMaking};
    ghost use Rattle.tracker_machine.specs.Machine.{Machine};

    ghost Value = { Machine };

    ghost view = { λ m. made_of m.setup m.balance m.change m.moment m.issues m.externals
        m.ranks.items m.sprints m.filters.items m.boards };

    ghost invariant = { λ m.
        IsMaking (made_of m.setup m.balance m.change m.moment m.issues m.externals
        m.ranks.items m.sprints m.filters.items m.boards)
        m.issues.tally m.ranks.items m.filters.items (keys m.taken) m.group_at };
}

impl Making {
    /// A tracker of this setup that stands there, of which no more is known yet.
    pub(crate) fn new(
        alloc: Global,
        setup: Setup,
        balance: Balance,
        change: u64,
        moment: Moment,
    ) -> Result<Making, Memory>
        ensures { IfOk result (λ made. made
            ≡ standing setup.text (parts setup) balance change moment) }
    {
        let issues = Issues::new(alloc, setup.project.as_slice())?;
        Ok(Making {
            setup,
            balance,
            change,
            moment,
            issues,
            externals: ExternalIds::new(alloc),
            ranks: Vec::new(alloc),
            sprints: Sprints::empty(alloc),
            filters: Vec::new(alloc),
            boards: Boards::new(alloc),
            taken: BTreeSet::new(alloc),
            group_at: Moment::first(),
        })
    }

    /// The setup, lent.
    pub(crate) fn setup(&self) -> &Setup
        ensures parts { parts result.now ≡ self.now.setup }
        ensures text { result.now.text ≡ self.now.text }
    {
        &self.setup
    }

    /// Its parts: those that stand in a state as they are, and those from which the others follow.
    pub(crate) fn into_parts(self) -> (Base, Given)
        ensures same { made_with result.0 result.1 ≡ self }
        ensures whole { IsWhole self result.0 result.1 }
    {
        let Making {
            setup,
            balance,
            change,
            moment,
            issues,
            externals,
            ranks,
            sprints,
            filters,
            boards,
            taken: _,
            group_at: _,
        } = self;
        let base = Base {
            setup,
            change,
            moment,
            issues,
            externals,
            boards,
        };
        let given = Given {
            balance,
            ranks,
            sprints,
            filters,
        };
        (base, given)
    }
}
