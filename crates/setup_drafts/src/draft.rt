//! The setup as its text writes it, with names where the setup has numbers.

pub mod field;
pub mod group;
pub mod head;
pub mod lists;
pub mod offset;
pub mod project;
pub mod status;
pub mod tables;
pub mod transition;

ghost use Rattle.std.specs.Prelude.{◌≡◌, IfOk};
ghost use Rattle.toml.specs.View.{table_view};
ghost use Rattle.setup_drafts.specs.Faults.{Answers};
ghost use Rattle.setup_drafts.specs.Offsets.{steps_of};
ghost use Rattle.field_values.specs.Words.{day_number};
ghost use Rattle.setup_drafts.specs.Drafts.{draft_fault, draft_of, IsSmall};

use crate::draft::head::{Head, Rights, read_head, read_rights};
use crate::draft::lists::{Lists, read_lists};
use crate::draft::offset::{OffsetSteps, offsets_at};
use crate::draft::tables::{Tables, read_tables};
use crate::fault::SetupFault;
use std::alloc::Global;
use toml::Table;

/// The setup as its text writes it.
pub struct Draft {
    pub head: Head,
    pub lists: Lists,
    pub rights: Rights,
    pub tables: Tables,
    pub steps: OffsetSteps,
}

// Written by hand, so that whoever lets one go makes one call, and its proof takes one step there.
impl Drop for Draft {
    fn drop(self) {
        let Draft {
            head: _,
            lists: _,
            rights: _,
            tables: _,
            steps: _,
        } = self;
    }
}

impl Draft {
    /// What it is made of, but for the rights, whose names are to be resolved.
    pub fn into_parts(self) -> (Head, Lists, Tables, OffsetSteps)
        ensures { result ≡ (self.head, self.lists, self.tables, self.steps) }
    {
        let Draft {
            head,
            lists,
            rights: _,
            tables,
            steps,
        } = self;
        (head, lists, tables, steps)
    }
}

/// What the keys of the top table say, or the first fault among them in their order.
#[tactic(auto, unfolding(crate::specs::Drafts::draft_fault, crate::specs::Drafts::draft_of))]
pub fn read_draft(alloc: Global, table: &Table) -> Result<Draft, SetupFault>
    ensures told { Answers (draft_fault (table_view table.now))
        (draft_of (table_view table.now)) result }
    ensures small { IfOk result IsSmall }
    ensures clock { IfOk result (λ draft. draft.steps ≡ steps_of draft.head.utc_offset_minutes
        (day_number draft.head.week_starts) draft.steps.offsets) }
{
    let head = read_head(alloc, table)?;
    let lists = read_lists(alloc, table)?;
    let rights = read_rights(alloc, table)?;
    let tables = read_tables(alloc, table)?;
    let steps = offsets_at(
        alloc,
        table,
        head.utc_offset_minutes,
        head.week_starts.number(),
    )?;
    Ok(Draft {
        head,
        lists,
        rights,
        tables,
        steps,
    })
}
