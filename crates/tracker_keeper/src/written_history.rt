// The bodies of a change group and of a group's members.
ghost use Rattle.std.specs.Prelude.{◌≡◌, true, map, IfOk, OnOk};
ghost use Rattle.std.specs.List.{All};
ghost use Rattle.serde_json.specs.Data.{array};
ghost use Rattle.serde_json.specs.View.{items_of};
ghost use Rattle.serde_json.specs.Written.{compact_text};
ghost use Rattle.field_forms.specs.TextLists.{texts_data};
ghost use Rattle.json_texts.specs.JsonTokens.{after};
ghost use Rattle.fields.specs.SetupParts.{names};
ghost use Rattle.tracker_keeper.specs.Forms.{IsGroupEntry, may_hold};
ghost use Rattle.tracker_keeper.specs.Bodies.{entry_data, group_data, user_names, members_data};

use crate::spelled::name_at;
use crate::written::ROOM;
use crate::written_values::{put_value, value_room};
use change_history::{Entry, Group};
use field_values::{IssueNo, Memory, Text, UserNo};
use fields::Setup;
use json_texts::JsonText;
use std::alloc::Global;

/// The body of a change group of an issue.
#[tactic(auto, using(json_texts::proofs::JsonTexts::whole))]
pub fn group_text(
    alloc: Global,
    setup: &Setup,
    issue: IssueNo,
    group: &Group,
) -> Result<Text, Memory>
    requires { All (IsGroupEntry (names setup.now) group.now.change group.now.at group.now.author)
        group.now.entries }
    ensures { IfOk result (λ text. text
        ≡ compact_text (group_data (names setup.now) group.now.at group.now.author
        group.now.entries issue.0)) }
{
    let mut out = JsonText::with_room(alloc, entries_room(group.entries.as_slice()))?;
    put_group(&mut out, setup, issue, group)?;
    Ok(out.into_text())
}

// Room for a body with these entries.
fn entries_room(entries: &[Entry]) -> usize {
    let mut room = ROOM;
    for entry in entries {
        room = room
            .saturating_add(value_room(&entry.from))
            .saturating_add(value_room(&entry.to));
    }
    room
}

#[tactic(auto, unfolding(crate::specs::Bodies::group_data))]
fn put_group(out: &mut JsonText, setup: &Setup, issue: IssueNo, group: &Group) -> Result<(), Memory>
    requires { All (IsGroupEntry (names setup.now) group.now.change group.now.at group.now.author)
        group.now.entries }
    ensures { OnOk result (out.new
        ≡ after (group_data (names setup.now) group.now.at group.now.author
        group.now.entries issue.0) out.old) }
{
    out.begin_object()?;
    out.number_member("at", group.at.seconds())?;
    out.text_member("author", name_at(setup.users.as_slice(), group.author.0))?;
    out.key("entries")?;
    put_entries(out, setup, group)?;
    out.number_member("issue", u64::from(issue.0))?;
    out.end_object()
}

fn put_entries(out: &mut JsonText, setup: &Setup, group: &Group) -> Result<(), Memory>
    requires { All (IsGroupEntry (names setup.now) group.now.change group.now.at group.now.author)
        group.now.entries }
    ensures { OnOk result (out.new
        ≡ after (array (items_of (map (entry_data (names setup.now)) group.now.entries))) out.old) }
{
    out.begin_array()?;
    for entry in group.entries.as_slice() {
        put_entry(out, setup, entry)?;
    }
    out.end_array()
}

fn put_entry(out: &mut JsonText, setup: &Setup, entry: &Entry) -> Result<(), Memory>
    requires from { may_hold (names setup.now) entry.now.field.0 entry.now.from ≡ true }
    requires to { may_hold (names setup.now) entry.now.field.0 entry.now.to ≡ true }
    ensures { OnOk result (out.new ≡ after (entry_data (names setup.now) entry.now) out.old) }
{
    out.begin_array()?;
    out.text(setup.field_name(entry.field))?;
    put_value(out, setup, entry.field, &entry.from)?;
    put_value(out, setup, entry.field, &entry.to)?;
    out.end_array()
}

/// The body of a group's members.
#[tactic(auto, using(json_texts::proofs::JsonTexts::whole))]
pub(crate) fn members_text(alloc: Global, setup: &Setup, members: &[UserNo]) -> Result<Text, Memory>
    ensures { IfOk result (λ text. text
        ≡ compact_text (members_data (user_names setup.now.users members.now))) }
{
    let mut out = JsonText::with_room(alloc, ROOM)?;
    put_members(&mut out, setup, members)?;
    Ok(out.into_text())
}

#[tactic(auto, unfolding(crate::specs::Bodies::members_data))]
fn put_members(out: &mut JsonText, setup: &Setup, members: &[UserNo]) -> Result<(), Memory>
    ensures { OnOk result (out.new
        ≡ after (members_data (user_names setup.now.users members.now)) out.old) }
{
    out.begin_object()?;
    out.key("members")?;
    put_names(out, setup.users.as_slice(), members)?;
    out.end_object()
}

fn put_names(out: &mut JsonText, users: &[Text], members: &[UserNo]) -> Result<(), Memory>
    ensures { OnOk result (out.new
        ≡ after (texts_data (user_names users.now members.now)) out.old) }
{
    out.begin_array()?;
    for member in members {
        out.text(name_at(users, member.0))?;
    }
    out.end_array()
}
