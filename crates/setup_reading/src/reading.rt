// The reading of a setup's text.
ghost use Rattle.std.specs.Prelude.{◌≡◌, ◌≢◌, Some, None, Ok, Err, length, IfOk, IfErr, OnOk};
ghost use Rattle.toml.specs.Parse.{parse_document};
ghost use Rattle.toml.specs.View.{table_view};
ghost use Rattle.setup_drafts.specs.Offsets.{steps_of};
ghost use Rattle.field_values.specs.Words.{day_number};
ghost use Rattle.setup_drafts.specs.Drafts.{draft_of, IsSmall};
ghost use Rattle.setup_drafts.specs.Faults.{Answers};
ghost use Rattle.setup_reading.specs.Reading.{parts_of, first_fault, setup_in};
ghost use Rattle.setup_reading.specs.Resolving.{resolve_fault, resolved};

use crate::resolved::{Resolved, resolve};
use setup_drafts::draft::{Draft, read_draft};
use setup_drafts::fault::SetupFault;
use setup_drafts::keys::check_keys;
use std::alloc::Global;
use toml::Table;

/// What is written in a setup's table, and the numbers of what it names.
pub struct Reading {
    pub draft: Draft,
    pub numbers: Resolved,
}

// Written by hand, so that whoever lets one go makes one call, and its proof takes one step there.
impl Drop for Reading {
    fn drop(self) {
        let Reading {
            draft: _,
            numbers: _,
        } = self;
    }
}

impl Reading {
    /// What it is made of.
    pub fn into_parts(self) -> (Draft, Resolved)
        ensures { result ≡ (self.draft, self.numbers) }
    {
        let Reading { draft, numbers } = self;
        (draft, numbers)
    }
}

/// The table of a text that is TOML.
fn table_of(alloc: Global, text: &str) -> Result<Table, SetupFault>
    ensures ok { IfOk result (λ table. parse_document text.now ≡ Some (table_view table)) }
    ensures err { IfErr result (λ fault. fault ≢ SetupFault.Memory
        → (fault ≡ SetupFault.BadToml) × (parse_document text.now ≡ None)) }
{
    match toml::table_from_str(alloc, text) {
        Ok(table) => Ok(table),
        Err(e) => {
            if e.is_memory() {
                Err(SetupFault::Memory)
            } else {
                Err(SetupFault::BadToml)
            }
        }
    }
}

/// What the names of a table's draft name, or the first fault among them.
fn resolve_table(alloc: Global, table: &Table, draft: &Draft) -> Result<Resolved, SetupFault>
    requires draft { draft.now ≡ draft_of (table_view table.now) }
    requires small { IsSmall draft.now }
    ensures told { Answers (resolve_fault (draft_of (table_view table.now)))
        (resolved (draft_of (table_view table.now))) result }
    ensures groups { IfOk result (λ resolved. length resolved.tables.groups
        ≡ length draft.now.tables.groups) }
    ensures projects { IfOk result (λ resolved. length resolved.tables.projects
        ≡ length draft.now.tables.projects) }
{
    let _table = table;
    resolve(alloc, draft)
}

/// A table's draft beside what its names name, or the first fault among them.
fn with_numbers(alloc: Global, table: &Table, draft: Draft) -> Result<Reading, SetupFault>
    requires draft { draft ≡ draft_of (table_view table.now) }
    requires small { IsSmall draft }
    ensures told { Answers (resolve_fault (draft_of (table_view table.now)))
        (record {
          draft = draft_of (table_view table.now);
          numbers = resolved (draft_of (table_view table.now));
        }) result }
    ensures draft { IfOk result (λ reading. reading.draft ≡ draft) }
    ensures groups { IfOk result (λ reading. length reading.numbers.tables.groups
        ≡ length reading.draft.tables.groups) }
    ensures projects { IfOk result (λ reading. length reading.numbers.tables.projects
        ≡ length reading.draft.tables.projects) }
{
    match resolve_table(alloc, table, &draft) {
        Ok(numbers) => Ok(Reading { draft, numbers }),
        Err(fault) => Err(fault),
    }
}

/// The reading, unless a later check has a fault.
fn unless(fault: Result<(), SetupFault>, reading: Reading) -> Result<Reading, SetupFault>
    ensures ok { OnOk fault (result ≡ Ok reading) }
    ensures err { IfErr fault (λ e. result ≡ Err e) }
{
    match fault {
        Ok(()) => Ok(reading),
        Err(fault) => Err(fault),
    }
}

/// What a setup's table says, or its first fault.
#[tactic(auto, unfolding(crate::specs::Reading::first_fault))]
fn read_table(alloc: Global, table: &Table) -> Result<Reading, SetupFault>
    ensures told { Answers (first_fault (table_view table.now))
        (record {
          draft = draft_of (table_view table.now);
          numbers = resolved (draft_of (table_view table.now));
        }) result }
    ensures small { IfOk result (λ reading. IsSmall reading.draft) }
    ensures clock { IfOk result (λ reading. reading.draft.steps
        ≡ steps_of reading.draft.head.utc_offset_minutes
        (day_number reading.draft.head.week_starts) reading.draft.steps.offsets) }
    ensures groups { IfOk result (λ reading. length reading.numbers.tables.groups
        ≡ length reading.draft.tables.groups) }
    ensures projects { IfOk result (λ reading. length reading.numbers.tables.projects
        ≡ length reading.draft.tables.projects) }
{
    let draft = read_draft(alloc, table)?;
    let reading = with_numbers(alloc, table, draft)?;
    unless(check_keys(alloc, table), reading)
}

/// What a setup's text says, or its first fault.
#[tactic(auto, unfolding(crate::specs::Reading::setup_in, crate::specs::Reading::parts_or_fault, crate::specs::Reading::parts_in))]
pub fn read_text(alloc: Global, text: &str) -> Result<Reading, SetupFault>
    // But for want of memory, the text alone decides.
    ensures ok { IfOk result (λ reading. setup_in text.now
        ≡ Ok (parts_of reading.draft reading.numbers)) }
    ensures err { IfErr result (λ fault. fault ≢ SetupFault.Memory
        → setup_in text.now ≡ Err fault) }
    // What was read is sound: there is not too much of anything, the calendar is the one that the
    // offsets give, and no group or project of the draft is missing.
    ensures small { IfOk result (λ reading. IsSmall reading.draft) }
    ensures clock { IfOk result (λ reading. reading.draft.steps
        ≡ steps_of reading.draft.head.utc_offset_minutes
        (day_number reading.draft.head.week_starts) reading.draft.steps.offsets) }
    ensures groups { IfOk result (λ reading. length reading.numbers.tables.groups
        ≡ length reading.draft.tables.groups) }
    ensures projects { IfOk result (λ reading. length reading.numbers.tables.projects
        ≡ length reading.draft.tables.projects) }
{
    let table = table_of(alloc, text)?;
    read_table(alloc, &table)
}
