// The keys of the tables of the setup.
ghost use Rattle.std.specs.Prelude.{◌≡◌, map, option_map, IfOk};
ghost use Rattle.std.specs.List.{list_any};
ghost use Rattle.std.specs.Str.{bytes_eq};
ghost use Rattle.toml.specs.Data.{get_member};
ghost use Rattle.toml.specs.View.{table_view};
ghost use Rattle.setup_drafts.specs.Faults.{Tells};
ghost use Rattle.setup_drafts.specs.Cells.{tables_in};
ghost use Rattle.setup_drafts.specs.Keys.{keys_of, is_key, unknown_key, lesser, unknown_below};
ghost use Rattle.setup_drafts.specs.Keys.{unknown_in_tables, key_fault};

use crate::cell::entries_at;
use crate::fault::SetupFault;
use field_forms::form::is_before;
use field_values::memory::Memory;
use std::alloc::Global;
use toml::Table;

/// A kind of table, by its keys.
#[derive(Clone, Copy)]
pub enum KeySet {
    Top,
    Group,
    Project,
    Status,
    Transition,
    Field,
    Offset,
}

/// The keys of the top table.
const TOP_KEYS: [&str; 17] = [
    "utc_offset_minutes",
    "week_starts",
    "rebalancer",
    "users",
    "types",
    "priorities",
    "resolutions",
    "versions",
    "first_status",
    "plan",
    "administer",
    "group",
    "project",
    "status",
    "transition",
    "field",
    "offset",
];

/// The keys of a project's table.
const PROJECT_KEYS: [&str; 7] = [
    "key",
    "lead",
    "browse",
    "create",
    "edit",
    "transition",
    "rank",
];

/// The keys of a transition's table.
const TRANSITION_KEYS: [&str; 6] = ["name", "from", "to", "conditions", "validators", "post"];

fn is_one_of(keys: &[&str], name: &str) -> bool
    ensures { result ≡ list_any (λ key. bytes_eq name.now key.now) keys.now }
{
    keys.iter().any(|key| name == *key)
}

fn is_top_key(name: &str) -> bool
    ensures { result ≡ list_any (λ key. bytes_eq name.now key) (keys_of KeySet.Top) }
{
    is_one_of(&TOP_KEYS, name)
}

fn is_group_key(name: &str) -> bool
    ensures { result ≡ list_any (λ key. bytes_eq name.now key) (keys_of KeySet.Group) }
{
    name == "name" || name == "members"
}

/// Whether a project's table has such a key.
pub fn is_project_key(name: &str) -> bool
    ensures { result ≡ list_any (λ key. bytes_eq name.now key) (keys_of KeySet.Project) }
{
    is_one_of(&PROJECT_KEYS, name)
}

fn is_status_key(name: &str) -> bool
    ensures { result ≡ list_any (λ key. bytes_eq name.now key) (keys_of KeySet.Status) }
{
    name == "name" || name == "category"
}

fn is_transition_key(name: &str) -> bool
    ensures { result ≡ list_any (λ key. bytes_eq name.now key) (keys_of KeySet.Transition) }
{
    is_one_of(&TRANSITION_KEYS, name)
}

fn is_field_key(name: &str) -> bool
    ensures { result ≡ list_any (λ key. bytes_eq name.now key) (keys_of KeySet.Field) }
{
    name == "number" || name == "name" || name == "kind" || name == "options"
}

fn is_offset_key(name: &str) -> bool
    ensures { result ≡ list_any (λ key. bytes_eq name.now key) (keys_of KeySet.Offset) }
{
    name == "from" || name == "minutes"
}

fn is_key(set: KeySet, name: &str) -> bool
    ensures { result ≡ is_key set name.now }
{
    match set {
        KeySet::Top => is_top_key(name),
        KeySet::Group => is_group_key(name),
        KeySet::Project => is_project_key(name),
        KeySet::Status => is_status_key(name),
        KeySet::Transition => is_transition_key(name),
        KeySet::Field => is_field_key(name),
        KeySet::Offset => is_offset_key(name),
    }
}

/// The first key that isn't the table's.
fn unknown_key(set: KeySet, table: &Table) -> Option<&str>
    ensures { option_map (λ key. key.now) result ≡ unknown_key set (table_view table.now) }
{
    for (name, _) in table.iter() {
        if !is_key(set, name.as_str()) {
            return Some(name.as_str());
        }
    }
    None
}

/// The one that comes first in the order of bytes.
fn lesser<'a>(one: Option<&'a str>, other: Option<&'a str>) -> Option<&'a str>
    ensures { option_map (λ key. key.now) result
        ≡ lesser (option_map (λ key. key.now) one.entry) (option_map (λ key. key.now) other.entry) }
{
    match (one, other) {
        (None, other) => other,
        (Some(one), None) => Some(one),
        (Some(one), Some(other)) => {
            if is_before(other, one) {
                Some(other)
            } else {
                Some(one)
            }
        }
    }
}

/// The first unknown key of some tables, or the one that was found before.
fn unknown_below<'a>(set: KeySet, found: Option<&'a str>, tables: &[&'a Table]) -> Option<&'a str>
    ensures { option_map (λ key. key.now) result
        ≡ unknown_below set (option_map (λ key. key.now) found.entry)
        (map (λ t. table_view t.now) tables.now) }
{
    let mut first = found;
    for table in tables {
        first = lesser(first, unknown_key(set, table));
    }
    first
}

/// The first unknown key of the tables at a key, or the one that was found before.
fn unknown_at<'a>(
    alloc: Global,
    set: KeySet,
    found: Option<&'a str>,
    table: &'a Table,
    key: &str,
) -> Result<Option<&'a str>, Memory>
    ensures { IfOk result (λ unknown. option_map (λ key. key.now) unknown
        ≡ unknown_below set (option_map (λ key. key.now) found.entry)
        (tables_in (get_member key.now (table_view table.now)))) }
{
    let entries = entries_at(alloc, table, key)?;
    Ok(unknown_below(set, found, entries.as_slice()))
}

/// The first unknown key of all tables below the top.
#[tactic(auto, unfolding(crate::specs::Keys::unknown_in_tables))]
fn unknown_in_tables(alloc: Global, table: &Table) -> Result<Option<&str>, Memory>
    ensures { IfOk result (λ unknown. option_map (λ key. key.now) unknown
        ≡ unknown_in_tables (table_view table.now)) }
{
    let found = unknown_at(alloc, KeySet::Group, None, table, "group")?;
    let found = unknown_at(alloc, KeySet::Project, found, table, "project")?;
    let found = unknown_at(alloc, KeySet::Status, found, table, "status")?;
    let found = unknown_at(alloc, KeySet::Transition, found, table, "transition")?;
    let found = unknown_at(alloc, KeySet::Field, found, table, "field")?;
    unknown_at(alloc, KeySet::Offset, found, table, "offset")
}

/// The fault that a key isn't the setup's.
#[tactic(auto, unfolding(crate::specs::Keys::key_fault))]
pub fn check_keys(alloc: Global, table: &Table) -> Result<(), SetupFault>
    ensures { Tells (key_fault (table_view table.now)) result }
{
    if let Some(key) = unknown_key(KeySet::Top, table) {
        return Err(SetupFault::unknown(alloc, key));
    }
    match unknown_in_tables(alloc, table)? {
        Some(key) => Err(SetupFault::unknown(alloc, key)),
        None => Ok(()),
    }
}
