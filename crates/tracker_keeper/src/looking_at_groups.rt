// The change group that a body tells.
ghost use Rattle.std.specs.Prelude.{◌≡◌, true, option_map, IfOk};
ghost use Rattle.std.specs.List.{list_all};
ghost use Rattle.field_forms.specs.Known.{has_few_options, form_of};
ghost use Rattle.fields.specs.SetupParts.{names};
ghost use Rattle.serde_json.specs.Find.{at};
ghost use Rattle.serde_json.specs.View.{view, items_view};
ghost use Rattle.tracker_keeper.specs.LookingAtValues.{field_in, value_at, field_at, entry_like};
ghost use Rattle.tracker_keeper.specs.LookingAtValues.{entries_like, entries_at, number_at};
ghost use Rattle.tracker_keeper.specs.LookingAtValues.{group_like};

use crate::looking::{moment_at, number_in, user_at};
use crate::looking_at_issues::change_in;
use crate::looking_at_members::items_at;
use crate::looking_at_values::value_like;
use crate::part::Part;
use change_history::{Entries, Entry, Group};
use field_forms::known::form_of;
use field_values::{Field, FieldNo, IssueNo, Memory, Moment, UserNo, Value};
use fields::Setup;
use fields::laws::keeps_what_was_read;
use serde_json::Value as Json;
use std::alloc::Global;

#[tactic(auto, using(crate::proofs::ValuesBack::all_few))]
fn field_in(setup: &Setup, name: &str) -> Option<FieldNo>
    ensures { option_map (λ field. field.0) result ≡ field_in setup.now.field name.now }
{
    keeps_what_was_read(setup);
    let field = setup.field_named(name)?;
    has_form(setup.field.as_slice(), field)
}

fn has_form(fields: &[Field], field: FieldNo) -> Option<FieldNo>
    requires { list_all has_few_options fields.now ≡ true }
    ensures { result ≡ option_map (λ form. field) (form_of fields.now field.0) }
{
    match form_of(fields, field) {
        Some(_) => Some(field),
        None => None,
    }
}

fn item_at(value: &Json, place: usize) -> Option<&Json>
    ensures { option_map (λ v. view v.now) result ≡ at place (view value.now) }
{
    value.get(place)
}

fn value_at(
    alloc: Global,
    setup: &Setup,
    field: FieldNo,
    place: usize,
    value: &Json,
) -> Result<Option<Value>, Memory>
    ensures { IfOk result (λ found. found
        ≡ value_at (names setup.now) field.0 place (view value.now)) }
{
    match item_at(value, place) {
        Some(item) => value_like(alloc, setup, field, item),
        None => Ok(None),
    }
}

fn field_at(setup: &Setup, value: &Json) -> Option<FieldNo>
    ensures { option_map (λ field. field.0) result ≡ field_at setup.now.field (view value.now) }
{
    let name = item_at(value, 0)?.as_str()?;
    field_in(setup, name)
}

// What the entries of a group have from it.
#[derive(Clone, Copy)]
struct Stamp {
    change: u64,
    at: Moment,
    author: UserNo,
}

fn entry_like(
    alloc: Global,
    setup: &Setup,
    stamp: &Stamp,
    value: &Json,
) -> Result<Option<Entry>, Memory>
    ensures { IfOk result (λ entry. entry
        ≡ entry_like (names setup.now) stamp.now.change stamp.now.at stamp.now.author
        (view value.now)) }
{
    let Some(field) = field_at(setup, value) else {
        return Ok(None);
    };
    let Some(from) = value_at(alloc, setup, field, 1, value)? else {
        return Ok(None);
    };
    let Some(to) = value_at(alloc, setup, field, 2, value)? else {
        return Ok(None);
    };
    Ok(Some(Entry {
        change: stamp.change,
        at: stamp.at,
        author: stamp.author,
        field,
        from,
        to,
    }))
}

fn entries_like(
    alloc: Global,
    setup: &Setup,
    stamp: &Stamp,
    items: &[Json],
) -> Result<Option<Entries>, Memory>
    ensures { IfOk result (λ entries. entries
        ≡ entries_like (names setup.now) stamp.now.change stamp.now.at stamp.now.author
        (items_view items.now)) }
{
    let mut entries = Entries::new(alloc);
    for item in items {
        let Some(entry) = entry_like(alloc, setup, stamp, item)? else {
            return Ok(None);
        };
        entries.push(entry)?;
    }
    Ok(Some(entries))
}

fn entries_at(
    alloc: Global,
    setup: &Setup,
    stamp: &Stamp,
    value: &Json,
) -> Result<Option<Entries>, Memory>
    ensures { IfOk result (λ entries. entries
        ≡ entries_at (names setup.now) stamp.now.change stamp.now.at stamp.now.author
        (view value.now)) }
{
    match items_at(value, "entries") {
        Some(items) => entries_like(alloc, setup, stamp, items),
        None => Ok(None),
    }
}

fn number_at(value: &Json, name: &str) -> Option<u32>
    ensures { result ≡ number_at name.now (view value.now) }
{
    let number = value.get(name)?.as_u64()?;
    number_in(number)
}

#[tactic(auto, unfolding(crate::specs::LookingAtValues::group_like))]
pub(crate) fn group_like(
    alloc: Global,
    setup: &Setup,
    no: u64,
    value: &Json,
) -> Result<Option<Part>, Memory>
    ensures { IfOk result (λ part. part ≡ group_like (names setup.now) no (view value.now)) }
{
    let Some(change) = change_in(no) else {
        return Ok(None);
    };
    let Some(at) = moment_at(value, "at") else {
        return Ok(None);
    };
    let Some(author) = user_at(setup, value, "author") else {
        return Ok(None);
    };
    let Some(issue) = number_at(value, "issue") else {
        return Ok(None);
    };
    let stamp = Stamp { change, at, author };
    let Some(entries) = entries_at(alloc, setup, &stamp, value)? else {
        return Ok(None);
    };
    Ok(Some(Part::Group {
        issue: IssueNo(issue),
        group: Group {
            change,
            at,
            author,
            entries,
        },
    }))
}
