// The JSON of a cause for which the tracker refuses a call.
ghost use Rattle.std.specs.Prelude.{◌≡◌, IfOk, OnOk};
ghost use Rattle.json_texts.specs.JsonTokens.{after};
ghost use Rattle.reply_texts.specs.Reply.{cause_data, form_data, unknown_data, forbidden_data};
ghost use Rattle.reply_texts.specs.Reply.{index_data, unfit_data, query_data, no_room_data};
ghost use Rattle.reply_texts.specs.Reply.{sprint_is_data, limit_data, earlier_data};
ghost use Rattle.reply_texts.specs.Reply.{balance_text, balance_is_data, external_is_data};

use crate::words::{limit_name, limit_number, permission_name, phase_name, thing_name};
use field_values::{Memory, Moment, Permission, Text};
use json_texts::JsonText;
use std::alloc::Global;
use tracker_calls::{BalanceKept, Cause, Limit, SprintPhase, Thing};

/// Writes the members of a cause.
pub fn write_cause(alloc: Global, out: &mut JsonText, cause: &Cause) -> Result<(), Memory>
    ensures { OnOk result (out.new ≡ after (cause_data cause.now) out.old) }
{
    match cause {
        Cause::Form { member } => write_form(out, member),
        Cause::Unknown { kind, name } => write_unknown(out, *kind, name),
        Cause::Forbidden {
            permission,
            project,
        } => write_forbidden(out, *permission, project),
        Cause::Condition { index } => write_index(out, 4, *index),
        Cause::Validator { index } => write_index(out, 5, *index),
        Cause::Unfit { field } => write_unfit(out, field),
        Cause::Query { kind, place } => write_query(out, *kind, *place),
        Cause::NoRoom { low, high } => write_no_room(out, low, high),
        Cause::SprintIs { state } => write_sprint_is(out, *state),
        Cause::Limit { limit } => write_limit(out, *limit),
        Cause::Earlier { kept } => write_earlier(out, *kept),
        Cause::BalanceIs(balance) => write_balance_is(alloc, out, *balance),
        Cause::ExternalIs { external, kept } => write_external_is(out, external, kept),
    }
}

fn write_form(out: &mut JsonText, member: &Text) -> Result<(), Memory>
    ensures { OnOk result (out.new ≡ after (form_data member.now) out.old) }
{
    out.begin_object()?;
    out.text_member("member", member.as_str())?;
    out.number_member("no", 1)?;
    out.end_object()
}

fn write_unknown(out: &mut JsonText, kind: Thing, name: &Text) -> Result<(), Memory>
    ensures { OnOk result (out.new ≡ after (unknown_data kind name.now) out.old) }
{
    out.begin_object()?;
    out.text_member("kind", thing_name(kind))?;
    out.text_member("name", name.as_str())?;
    out.number_member("no", 2)?;
    out.end_object()
}

fn write_forbidden(
    out: &mut JsonText,
    permission: Permission,
    project: &Option<Text>,
) -> Result<(), Memory>
    ensures { OnOk result (out.new ≡ after (forbidden_data permission project.now) out.old) }
{
    out.begin_object()?;
    out.number_member("no", 3)?;
    out.text_member("permission", permission_name(permission))?;
    out.key("project")?;
    out.text_or_null(project)?;
    out.end_object()
}

fn write_index(out: &mut JsonText, number: u64, index: usize) -> Result<(), Memory>
    ensures { OnOk result (out.new ≡ after (index_data number index) out.old) }
{
    out.begin_object()?;
    out.number_member("index", index as u64)?;
    out.number_member("no", number)?;
    out.end_object()
}

fn write_unfit(out: &mut JsonText, field: &Text) -> Result<(), Memory>
    ensures { OnOk result (out.new ≡ after (unfit_data field.now) out.old) }
{
    out.begin_object()?;
    out.text_member("field", field.as_str())?;
    out.number_member("no", 6)?;
    out.end_object()
}

fn write_query(out: &mut JsonText, kind: u8, place: usize) -> Result<(), Memory>
    ensures { OnOk result (out.new ≡ after (query_data kind place) out.old) }
{
    out.begin_object()?;
    out.number_member("kind", u64::from(kind))?;
    out.number_member("no", 7)?;
    out.number_member("place", place as u64)?;
    out.end_object()
}

fn write_no_room(out: &mut JsonText, low: &Option<Text>, high: &Option<Text>) -> Result<(), Memory>
    ensures { OnOk result (out.new ≡ after (no_room_data low.now high.now) out.old) }
{
    out.begin_object()?;
    out.key("high")?;
    out.text_or_null(high)?;
    out.key("low")?;
    out.text_or_null(low)?;
    out.number_member("no", 8)?;
    out.end_object()
}

fn write_sprint_is(out: &mut JsonText, state: SprintPhase) -> Result<(), Memory>
    ensures { OnOk result (out.new ≡ after (sprint_is_data state) out.old) }
{
    out.begin_object()?;
    out.number_member("no", 9)?;
    out.text_member("state", phase_name(state))?;
    out.end_object()
}

fn write_limit(out: &mut JsonText, limit: Limit) -> Result<(), Memory>
    ensures { OnOk result (out.new ≡ after (limit_data limit) out.old) }
{
    out.begin_object()?;
    out.text_member("limit", limit_name(limit))?;
    out.number_member("no", 10)?;
    out.number_member("number", limit_number(limit))?;
    out.end_object()
}

fn write_earlier(out: &mut JsonText, kept: Moment) -> Result<(), Memory>
    ensures { OnOk result (out.new ≡ after (earlier_data kept) out.old) }
{
    out.begin_object()?;
    out.number_member("kept", kept.seconds())?;
    out.number_member("no", 11)?;
    out.end_object()
}

fn write_balance_is(alloc: Global, out: &mut JsonText, balance: BalanceKept) -> Result<(), Memory>
    ensures { OnOk result (out.new ≡ after (balance_is_data balance) out.old) }
{
    let text = balance_text(alloc, balance)?;
    out.begin_object()?;
    out.text_member("kept", text.as_str())?;
    out.number_member("no", 12)?;
    out.end_object()
}

fn balance_text(alloc: Global, balance: BalanceKept) -> Result<Text, Memory>
    ensures { IfOk result (λ text. text ≡ balance_text balance) }
{
    match balance {
        BalanceKept::Idle(bucket) => Ok(Text::of(format!(in alloc; "idle {bucket}")?)),
        BalanceKept::Moving { from, to } => {
            Ok(Text::of(format!(in alloc; "moving {from} {to}")?))
        }
    }
}

fn write_external_is(out: &mut JsonText, external: &Text, kept: &Text) -> Result<(), Memory>
    ensures { OnOk result (out.new ≡ after (external_is_data external.now kept.now) out.old) }
{
    out.begin_object()?;
    out.text_member("external", external.as_str())?;
    out.text_member("kept", kept.as_str())?;
    out.number_member("no", 13)?;
    out.end_object()
}
