ghost use Rattle.std.specs.Prelude.{◌≡◌, ◌≤◌, true, Ok, length, map};
ghost use Rattle.std.specs.List.{list_all};
ghost use Rattle.field_forms.specs.Known.{has_few_options};
ghost use Rattle.setup_drafts.specs.Offsets.{zone_of};
ghost use Rattle.field_values.specs.Words.{day_number};
ghost use Rattle.setup_reading.specs.Reading.{memberless, kept_in};
ghost use Rattle.fields.specs.Sound.{IsSound};

use crate::indexed_lists::IndexedLists;
use crate::table_names::TableNames;
use field_values::field::Field;
use field_values::memory::Memory;
use field_values::numbers::{ChoiceNo, GroupNo, UserNo};
use field_values::offset::Offset;
use field_values::parts::{Group, Project, Transition};
use field_values::sequence::Sequence;
use field_values::status::Status;
use field_values::text::Text;
use field_values::words::Weekday;
use name_index::IndexedNames;
use relative_dates::Calendar;
use setup_drafts::fault::SetupFault;
use setup_reading::built_in_text::BUILT_IN;
use setup_reading::reading::{Reading, read_text};
use std::alloc::Global;
use std::str;

/// Who and what the tracker knows, and who may do what: one field for each key of the text that was read. Lists and
/// tables stand in the text's order.
pub struct Setup {
    /// The text that was read.
    pub text: Text,
    /// How far local time is ahead of UTC at first, -840 to 840.
    pub utc_offset_minutes: i32,
    /// The day on which a week begins.
    pub week_starts: Weekday,
    /// The user by whom ranks are balanced.
    pub rebalancer: UserNo,
    pub users: IndexedNames,
    /// Issue types.
    pub types: IndexedNames,
    /// The highest first.
    pub priorities: IndexedNames,
    pub resolutions: IndexedNames,
    pub versions: IndexedNames,
    /// The status of a new issue.
    pub first_status: ChoiceNo,
    /// The groups that may plan sprints.
    pub plan: Sequence<GroupNo>,
    /// The groups that may administer the tracker.
    pub administer: Sequence<GroupNo>,
    pub group: Sequence<Group>,
    pub project: Sequence<Project>,
    pub status: Sequence<Status>,
    pub transition: Sequence<Transition>,
    /// The fields of the setup's own.
    pub field: Sequence<Field>,
    /// The steps of the offset from UTC, by rising moments.
    pub offset: Sequence<Offset>,
    pub(crate) table_names: TableNames,
    pub(crate) calendar: Calendar,
    pub ghost few_users: { length users ≤ 200 },
    ghost few_types: { length types ≤ 30 },
    ghost few_priorities: { length priorities ≤ 20 },
    ghost few_resolutions: { length resolutions ≤ 50 },
    ghost few_versions: { length versions ≤ 500 },
    ghost few_groups: { length group ≤ 100 },
    ghost few_projects: { length project ≤ 50 },
    ghost few_statuses: { length status ≤ 50 },
    pub ghost few_fields: { length field ≤ 30 },
    ghost few_options: { list_all has_few_options field ≡ true },
    ghost named_statuses: { table_names.statuses ≡ map (λ s. s.name) status },
    ghost named_groups: { table_names.groups ≡ map (λ g. g.name) group },
    ghost keyed_projects: { table_names.projects ≡ map (λ p. p.key) project },
    ghost named_transitions: { table_names.transitions ≡ map (λ t. t.name) transition },
    ghost named_fields: { table_names.fields ≡ map (λ f. f.name) field },
    ghost listed_options: { table_names.options ≡ map (λ f. f.options) field },
    ghost clock: { calendar
        ≡ record { zone = zone_of utc_offset_minutes offset; first_day = day_number week_starts } },
    pub ghost reads: { kept_in text
        ≡ Ok (memberless (record {
          utc_offset_minutes = utc_offset_minutes;
          week_starts = week_starts;
          rebalancer = rebalancer;
          users = users;
          types = types;
          priorities = priorities;
          resolutions = resolutions;
          versions = versions;
          first_status = first_status;
          plan = plan;
          administer = administer;
          group = group;
          project = project;
          status = status;
          transition = transition;
          field = field;
          offset = offset;
        })) },
    pub ghost sound: { IsSound (record {
      utc_offset_minutes = utc_offset_minutes;
      week_starts = week_starts;
      rebalancer = rebalancer;
      users = users;
      types = types;
      priorities = priorities;
      resolutions = resolutions;
      versions = versions;
      first_status = first_status;
      plan = plan;
      administer = administer;
      group = group;
      project = project;
      status = status;
      transition = transition;
      field = field;
      offset = offset;
    }) },
}

// Written by hand, so that whoever lets one go makes one call, and its proof takes one step there.
impl Drop for Setup {
    fn drop(self) {
        let Setup {
            text: _,
            utc_offset_minutes: _,
            week_starts: _,
            rebalancer: _,
            users: _,
            types: _,
            priorities: _,
            resolutions: _,
            versions: _,
            first_status: _,
            plan: _,
            administer: _,
            group: _,
            project: _,
            status: _,
            transition: _,
            field: _,
            offset: _,
            table_names: _,
            calendar: _,
        } = self;
    }
}

impl Setup {
    ghost use Rattle.std.specs.Prelude.{IfOk, IfErr, IsUtf8, codes};
    ghost use Rattle.setup_drafts.specs.Drafts.{IsSmall};
    ghost use Rattle.setup_drafts.specs.Offsets.{steps_of};
    ghost use Rattle.setup_reading.specs.Reading.{parts_of, setup_in, Explains};
    ghost use Rattle.fields.specs.SetupParts.{parts};
    ghost use Rattle.fields.specs.BuiltInParts.{built_in_parts};

    /// Reads a setup from the bytes of a TOML text. The first fault is told, in the order of the setup's keys: first of
    /// what the keys hold, then of the names and rules in it, then of keys that aren't the setup's.
    pub fn read(alloc: Global, bytes: &[u8]) -> Result<Setup, SetupFault>
        ensures ok { IfOk result
            (λ setup. IsUtf8 bytes.now × (setup_in bytes.now ≡ Ok (parts setup))) }
        ensures text { IfOk result (λ setup. setup.text ≡ bytes.now) }
        ensures err { IfErr result (Explains bytes.now) }
    {
        let Ok(text) = str::from_utf8(bytes) else {
            return Err(SetupFault::BadToml);
        };
        let reading = read_text(alloc, text)?;
        Ok(Setup::of(alloc, text, reading)?)
    }

    /// The setup that a new tracker has: the reading of [`BUILT_IN`].
    #[tactic(auto, using(crate::proofs::BuiltIn::reads_to))]
    pub fn built_in(alloc: Global) -> Result<Setup, Memory>
        ensures known { IfOk result (λ setup. parts setup ≡ built_in_parts) }
        ensures parts { IfOk result (λ setup. setup_in BUILT_IN.now ≡ Ok (parts setup)) }
        ensures text { IfOk result (λ setup. setup.text ≡ BUILT_IN.now) }
    {
        match Setup::read(alloc, BUILT_IN.as_bytes()) {
            Ok(setup) => Ok(setup),
            // The text is a setup, so no other fault comes.
            Err(fault) => Err(memory_alone(fault)),
        }
    }

    #[tactic(auto, unfolding(setup_reading::specs::Reading::kept_in))]
    fn of(alloc: Global, text: &str, reading: Reading) -> Result<Setup, Memory>
        // Draft and numbers are what the text says.
        requires reads { setup_in text.now ≡ Ok (parts_of reading.draft reading.numbers) }
        // They are sound: there is not too much of anything, the calendar is the one that the
        // offsets give, and no group or project is missing.
        requires small { IsSmall reading.draft }
        requires clock { reading.draft.steps ≡ steps_of reading.draft.head.utc_offset_minutes
            (day_number reading.draft.head.week_starts) reading.draft.steps.offsets }
        requires groups { length reading.numbers.tables.groups
            ≡ length reading.draft.tables.groups }
        requires projects { length reading.numbers.tables.projects
            ≡ length reading.draft.tables.projects }
        // The setup says the same, and keeps the text as it was.
        ensures parts { IfOk result (λ setup. setup_in text.now ≡ Ok (parts setup)) }
        ensures text { IfOk result (λ setup. setup.text ≡ text.now) }
    {
        let text = Text::copy_of(alloc, text)?;
        let table_names = TableNames::of(
            alloc,
            reading.draft.tables.statuses.as_slice(),
            reading.draft.tables.fields.as_slice(),
            &reading.numbers.tables,
        )?;
        let (draft, numbers) = reading.into_parts();
        let (head, lists, tables, steps) = draft.into_parts();
        let lists = IndexedLists::of(alloc, lists)?;
        let (statuses, fields) = tables.into_statuses_and_fields();
        let (rights, resolved) = numbers.into_parts();
        Ok(Setup {
            text,
            utc_offset_minutes: head.utc_offset_minutes,
            week_starts: head.week_starts,
            rebalancer: rights.rebalancer,
            users: lists.users,
            types: lists.types,
            priorities: lists.priorities,
            resolutions: lists.resolutions,
            versions: lists.versions,
            first_status: rights.first_status,
            plan: rights.plan,
            administer: rights.administer,
            group: resolved.groups,
            project: resolved.projects,
            status: statuses,
            transition: resolved.transitions,
            field: fields,
            offset: steps.offsets,
            table_names,
            calendar: steps.calendar,
        })
    }
}

// Want of memory, where the fault is nothing else.
fn memory_alone(fault: SetupFault) -> Memory
    requires { fault ≡ SetupFault.Memory }
{
    let _fault = fault;
    Memory
}
