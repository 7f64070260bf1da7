ghost use Rattle.std.specs.Prelude.{◌≤ℤ◌, neg_ℤ, pos, IfOk};
ghost use Rattle.toml.specs.Data.{get_member};
ghost use Rattle.toml.specs.View.{table_view};
ghost use Rattle.setup_drafts.specs.Faults.{Answers};
ghost use Rattle.setup_drafts.specs.Cells.{word_fault, word_in};
ghost use Rattle.field_values.specs.Words.{weekday_of};
ghost use Rattle.setup_drafts.specs.Drafts.{head_fault, head_of, rights_fault, rights_of};

use crate::cell::{names_at, text_at, value_at, whole_at};
use crate::fault::SetupFault;
use field_forms::name_form::NameForm;
use field_values::names::Names;
use field_values::text::Text;
use field_values::words::{Weekday, weekday_of};
use std::alloc::Global;
use toml::Table;

/// The keys that the setup begins with.
#[derive(Drop)]
pub struct Head {
    pub utc_offset_minutes: i32,
    pub week_starts: Weekday,
    pub rebalancer: Text,
}

/// The status of a new issue, and the groups that have the permissions of the whole tracker.
pub struct Rights {
    pub first_status: Text,
    pub plan: Names,
    pub administer: Names,
}

// Written by hand, so that whoever lets one go makes one call, and its proof takes one step there.
impl Drop for Rights {
    fn drop(self) {
        let Rights {
            first_status: _,
            plan: _,
            administer: _,
        } = self;
    }
}

fn weekday_at(alloc: Global, table: &Table, key: &str) -> Result<Weekday, SetupFault>
    ensures { Answers (word_fault weekday_of key.now (get_member key.now (table_view table.now)))
        (word_in weekday_of Weekday.Monday (get_member key.now (table_view table.now))) result }
{
    match value_at(table, key) {
        None => Err(SetupFault::missing(alloc, key)),
        Some(value) => match value.as_str() {
            Some(word) => match weekday_of(word) {
                Some(weekday) => Ok(weekday),
                None => Err(SetupFault::bad_value(alloc, key)),
            },
            None => Err(SetupFault::bad_value(alloc, key)),
        },
    }
}

/// The first keys of the top table, or the first fault among them.
#[tactic(auto, unfolding(crate::specs::Drafts::head_fault, crate::specs::Drafts::head_of))]
pub fn read_head(alloc: Global, table: &Table) -> Result<Head, SetupFault>
    ensures told { Answers (head_fault (table_view table.now))
        (head_of (table_view table.now)) result }
    ensures within { IfOk result (λ head. (neg_ℤ (pos 840) ≤ℤ head.utc_offset_minutes)
        × (head.utc_offset_minutes ≤ℤ pos 840)) }
{
    let minutes = whole_at(alloc, table, "utc_offset_minutes", -840, 840)?;
    let week_starts = weekday_at(alloc, table, "week_starts")?;
    let rebalancer = text_at(alloc, table, "rebalancer")?;
    Ok(Head {
        utc_offset_minutes: minutes as i32,
        week_starts,
        rebalancer,
    })
}

#[tactic(auto, unfolding(crate::specs::Drafts::rights_fault, crate::specs::Drafts::rights_of))]
pub(crate) fn read_rights(alloc: Global, table: &Table) -> Result<Rights, SetupFault>
    ensures { Answers (rights_fault (table_view table.now))
        (rights_of (table_view table.now)) result }
{
    let first_status = text_at(alloc, table, "first_status")?;
    let plan = names_at(alloc, table, "plan", NameForm::AnyText, 0, Some(100))?;
    let administer = names_at(alloc, table, "administer", NameForm::AnyText, 0, Some(100))?;
    Ok(Rights {
        first_status,
        plan,
        administer,
    })
}
