// Which table of a setup lacks a key.
ghost use Rattle.std.specs.Prelude.{◌≡◌, option_map};
ghost use Rattle.toml.specs.Data.{get_member};
ghost use Rattle.toml.specs.View.{view, table_view, items_view};
ghost use Rattle.setup_drafts.specs.Keys.{keys_of};
ghost use Rattle.setup_drafts.specs.Written.{has_fewer_than};
ghost use Rattle.setup_places.specs.Lacking.{is_choice, is_wanted, may_have, wanted_keys, wants_entry};
ghost use Rattle.setup_places.specs.Lacking.{lacks, table_lacks, first_from, place_under};
ghost use Rattle.setup_places.specs.Lacking.{first_place, kinds};
ghost use Rattle.std.specs.List.{list_any};
ghost use Rattle.std.specs.Str.{bytes_eq};

use crate::place::{Place, table_name};
use setup_drafts::keys::{KeySet, is_project_key};
use toml::{Table, Value};

/// The kinds of tables in the order in which a setup's are looked at.
const KINDS: [KeySet; 6] = [
    KeySet::Group,
    KeySet::Project,
    KeySet::Status,
    KeySet::Transition,
    KeySet::Field,
    KeySet::Offset,
];

/// The first table of a setup that lacks the key.
pub(crate) fn first_lacking(key: &str, top: &Table) -> Option<Place>
    ensures { result ≡ first_place kinds key.now (table_view top.now) }
{
    first_place(&KINDS, key, top)
}

// The first table of several kinds that lacks the key.
fn first_place(sets: &[KeySet], key: &str, top: &Table) -> Option<Place>
    ensures { result ≡ first_place sets.now key.now (table_view top.now) }
{
    for set in sets {
        if let Some(place) = place_under(*set, key, top) {
            return Some(place);
        }
    }
    None
}

// The first table of a kind that lacks the key.
fn place_under(set: KeySet, key: &str, top: &Table) -> Option<Place>
    ensures { result ≡ place_under set key.now (table_view top.now) }
{
    let Some(value) = value_at(top, table_name(set)) else {
        return None;
    };
    let Some(items) = value.as_array() else {
        return None;
    };
    match first_number(set, key, items) {
        Some(number) => Some(Place::Table(set, number)),
        None => None,
    }
}

// The number, from 1, of the first table that lacks the key.
fn first_number(set: KeySet, key: &str, items: &[Value]) -> Option<usize>
    ensures { result ≡ first_from set key.now 1 (items_view items.now) }
{
    let mut before = 0_usize;
    for item in items {
        before += 1;
        if table_lacks(set, key, item) {
            return Some(before);
        }
    }
    None
}

// Whether the value is a table that lacks the key.
fn table_lacks(set: KeySet, key: &str, value: &Value) -> bool
    ensures { result ≡ table_lacks set key.now (view value.now) }
{
    match value.as_table() {
        Some(table) => lacks(set, key, table),
        None => false,
    }
}

// Whether a table of that kind has to have the key, and doesn't.
fn lacks(set: KeySet, key: &str, table: &Table) -> bool
    ensures { result ≡ lacks set key.now (table_view table.now) }
{
    if !is_wanted(set, key, table) {
        return false;
    }
    match value_at(table, key) {
        Some(value) => wants_entry(set, key) && is_empty(value),
        None => true,
    }
}

// Whether a table of that kind has to have the key.
fn is_wanted(set: KeySet, key: &str, table: &Table) -> bool
    ensures { result ≡ is_wanted set key.now (table_view table.now) }
{
    is_wanted_key(set, key) && may_have(set, key, table)
}

// Whether the key is one that a table of that kind has to have.
fn is_wanted_key(set: KeySet, key: &str) -> bool
    ensures { result ≡ list_any (λ k. bytes_eq key.now k) (wanted_keys set) }
{
    match set {
        KeySet::Top => false,
        KeySet::Group => key == "name" || key == "members",
        KeySet::Project => is_project_key(key),
        KeySet::Status => key == "name" || key == "category",
        KeySet::Transition => key == "name" || key == "from" || key == "to",
        KeySet::Field => is_field_key(key),
        KeySet::Offset => key == "from" || key == "minutes",
    }
}

fn is_field_key(key: &str) -> bool
    ensures { result ≡ list_any (λ k. bytes_eq key.now k) (keys_of KeySet.Field) }
{
    key == "number" || key == "name" || key == "kind" || key == "options"
}

// Whether a table may have the key: options are a choice's alone.
fn may_have(set: KeySet, key: &str, table: &Table) -> bool
    ensures { result ≡ may_have set key.now (table_view table.now) }
{
    match set {
        KeySet::Field => key != "options" || is_choice(table),
        KeySet::Top
        | KeySet::Group
        | KeySet::Project
        | KeySet::Status
        | KeySet::Transition
        | KeySet::Offset => true,
    }
}

// Whether the kind of the own field is choice.
fn is_choice(table: &Table) -> bool
    ensures { result ≡ is_choice (table_view table.now) }
{
    let Some(value) = value_at(table, "kind") else {
        return false;
    };
    match value.as_str() {
        Some(kind) => kind == "choice",
        None => false,
    }
}

// Whether the list at the key has to have an entry.
fn wants_entry(set: KeySet, key: &str) -> bool
    ensures { result ≡ wants_entry set key.now }
{
    match set {
        KeySet::Transition => key == "from",
        KeySet::Field => key == "options",
        KeySet::Top | KeySet::Group | KeySet::Project | KeySet::Status | KeySet::Offset => false,
    }
}

// Whether the value is a list without an entry.
#[tactic(auto, using(setup_drafts::proofs::Counts::count_items))]
fn is_empty(value: &Value) -> bool
    ensures { result ≡ has_fewer_than 1 (view value.now) }
{
    match value.as_array() {
        Some(items) => items.len() < 1,
        None => false,
    }
}

// The value at a key.
fn value_at<'a>(table: &'a Table, key: &str) -> Option<&'a Value>
    ensures { option_map (λ v. view v.now) result ≡ get_member key.now (table_view table.now) }
{
    table.get(key)
}
