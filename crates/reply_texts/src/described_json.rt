// The JSON of what the setup and the present say.
ghost use Rattle.std.specs.Prelude.{◌≡◌, OnOk};
ghost use Rattle.json_texts.specs.JsonTokens.{after, after_members};
ghost use Rattle.reply_texts.specs.Described.{describe_data, middle_members, last_members};
ghost use Rattle.reply_texts.specs.Described.{field_data, options_members};
ghost use Rattle.reply_texts.specs.Described.{group_data, permission_data, project_data};
ghost use Rattle.reply_texts.specs.Described.{status_data, transition_data};

use crate::described_words::{category_name, kind_name, weekday_name};
use crate::list_json::{Listed, write_list};
use field_forms::rule_text::permission_name;
use field_values::{Memory, Names, Permission};
use json_texts::JsonText;
use tracker_calls::{
    DescribedParts, Description, ToldField, ToldGroup, ToldProject, ToldStatus, ToldTransition,
};

/// Writes what the setup and the present say.
pub fn write_describe(out: &mut JsonText, told: &Description) -> Result<(), Memory>
    ensures { OnOk result (out.new ≡ after (describe_data told.now) out.old) }
{
    write_parts(out, told.parts())
}

#[tactic(auto, unfolding(crate::specs::Described::describe_data))]
fn write_parts(out: &mut JsonText, told: &DescribedParts) -> Result<(), Memory>
    ensures { OnOk result (out.new ≡ after (describe_data told.now) out.old) }
{
    out.begin_object()?;
    out.boolean_member("administer", told.administer)?;
    out.key("fields")?;
    write_list(out, told.fields.as_slice())?;
    out.text_member("first_status", told.first_status.as_str())?;
    out.key("groups")?;
    write_list(out, told.groups.as_slice())?;
    write_middle(out, told)
}

// The members from the moment on, and the closing bracket.
#[tactic(auto, unfolding(crate::specs::Described::middle_members))]
fn write_middle(out: &mut JsonText, told: &DescribedParts) -> Result<(), Memory>
    ensures { OnOk result (out.new ≡ after_members (middle_members told.now) out.old) }
{
    out.number_member("moment", told.moment.seconds())?;
    out.integer_member("offset_minutes", i64::from(told.offset_minutes))?;
    out.boolean_member("plan", told.plan)?;
    out.key("projects")?;
    write_list(out, told.projects.as_slice())?;
    out.text_member("rebalancer", told.rebalancer.as_str())?;
    write_last(out, told)
}

// The members from the statuses on, and the closing bracket.
#[tactic(auto, unfolding(crate::specs::Described::last_members))]
fn write_last(out: &mut JsonText, told: &DescribedParts) -> Result<(), Memory>
    ensures { OnOk result (out.new ≡ after_members (last_members told.now) out.old) }
{
    out.key("statuses")?;
    write_list(out, told.statuses.as_slice())?;
    out.key("transitions")?;
    write_list(out, told.transitions.as_slice())?;
    out.text_member("user", told.user.as_str())?;
    out.key("users")?;
    out.texts(told.users.as_slice())?;
    out.text_member("week_starts", weekday_name(told.week_starts))?;
    out.end_object()
}

impl Listed for ToldField {
    ghost as_data = { field_data };

    fn write(&self, out: &mut JsonText) -> Result<(), Memory> {
        out.begin_object()?;
        out.text_member("kind", kind_name(self.kind))?;
        out.text_member("name", self.name.as_str())?;
        out.number_member("number", u64::from(self.number.0))?;
        write_options(out, &self.options)
    }
}

// The names that a value may have, where there are any, and the closing bracket.
fn write_options(out: &mut JsonText, options: &Option<Names>) -> Result<(), Memory>
    ensures { OnOk result (out.new ≡ after_members (options_members options.now) out.old) }
{
    if let Some(options) = options {
        out.key("options")?;
        out.texts(options.as_slice())?;
    }
    out.end_object()
}

impl Listed for ToldGroup {
    ghost as_data = { group_data };

    fn write(&self, out: &mut JsonText) -> Result<(), Memory> {
        out.begin_object()?;
        out.text_member("group", self.group.as_str())?;
        out.key("members")?;
        out.texts(self.members.as_slice())?;
        out.end_object()
    }
}

impl Listed for Permission {
    ghost as_data = { permission_data };

    fn write(&self, out: &mut JsonText) -> Result<(), Memory> {
        out.text(permission_name(*self))
    }
}

impl Listed for ToldProject {
    ghost as_data = { project_data };

    fn write(&self, out: &mut JsonText) -> Result<(), Memory> {
        out.begin_object()?;
        out.text_member("key", self.key.as_str())?;
        out.text_member("lead", self.lead.as_str())?;
        out.key("may")?;
        write_list(out, self.may.as_slice())?;
        out.end_object()
    }
}

impl Listed for ToldStatus {
    ghost as_data = { status_data };

    fn write(&self, out: &mut JsonText) -> Result<(), Memory> {
        out.begin_object()?;
        out.text_member("category", category_name(self.category))?;
        out.text_member("status", self.status.as_str())?;
        out.end_object()
    }
}

impl Listed for ToldTransition {
    ghost as_data = { transition_data };

    fn write(&self, out: &mut JsonText) -> Result<(), Memory> {
        out.begin_object()?;
        out.key("conditions")?;
        out.texts(self.conditions.as_slice())?;
        out.key("from")?;
        out.texts(self.from.as_slice())?;
        out.key("post")?;
        out.texts(self.post.as_slice())?;
        out.text_member("to", self.to.as_str())?;
        out.text_member("transition", self.transition.as_str())?;
        out.key("validators")?;
        out.texts(self.validators.as_slice())?;
        out.end_object()
    }
}
