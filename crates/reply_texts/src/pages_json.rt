// The JSON of answers that list issues with their fields, saved filters, boards and sprints.
ghost use Rattle.std.specs.Prelude.{◌≡◌, OnOk, map};
ghost use Rattle.serde_json.specs.Data.{array};
ghost use Rattle.serde_json.specs.View.{items_of};
ghost use Rattle.reply_texts.specs.Reply.{listed_data, list_data, told_filter_data, filters_data};
ghost use Rattle.reply_texts.specs.Reply.{told_board_data, boards_data};
ghost use Rattle.reply_texts.specs.Reply.{told_sprint_data, sprints_data};
ghost use Rattle.json_texts.specs.JsonTokens.{after};

use crate::list_json::{Listed, write_list};
use crate::show_json::write_show;
use crate::words::phase_name;
use field_values::Memory;
use json_texts::JsonText;
use std::alloc::Global;
use tracker_calls::{ListedIssue, ToldBoard, ToldFilter, ToldSprint};

/// Writes a part of the issues that were found.
pub fn write_issues(
    alloc: Global,
    out: &mut JsonText,
    issues: &[ListedIssue],
    total: u64,
) -> Result<(), Memory>
    ensures { OnOk result (out.new ≡ after (list_data issues.now total) out.old) }
{
    out.begin_object()?;
    out.key("issues")?;
    write_each(alloc, out, issues)?;
    out.number_member("total", total)?;
    out.end_object()
}

fn write_each(alloc: Global, out: &mut JsonText, issues: &[ListedIssue]) -> Result<(), Memory>
    ensures { OnOk result
        (out.new ≡ after (array (items_of (map listed_data issues.now))) out.old) }
{
    out.begin_array()?;
    for issue in issues {
        write_issue(alloc, out, issue)?;
    }
    out.end_array()
}

fn write_issue(alloc: Global, out: &mut JsonText, issue: &ListedIssue) -> Result<(), Memory>
    ensures { OnOk result (out.new ≡ after (listed_data issue.now) out.old) }
{
    write_show(
        alloc,
        out,
        issue.created,
        &issue.fields,
        &issue.issue,
        issue.updated,
    )
}

/// Writes a part of the saved filters that a caller is told.
pub fn write_filters(out: &mut JsonText, filters: &[ToldFilter], total: u64) -> Result<(), Memory>
    ensures { OnOk result (out.new ≡ after (filters_data filters.now total) out.old) }
{
    out.begin_object()?;
    out.key("filters")?;
    write_list(out, filters)?;
    out.number_member("total", total)?;
    out.end_object()
}

impl Listed for ToldFilter {
    ghost as_data = { told_filter_data };

    fn write(&self, out: &mut JsonText) -> Result<(), Memory> {
        out.begin_object()?;
        out.number_member("filter", u64::from(self.filter.0))?;
        out.text_member("jql", self.jql.as_str())?;
        out.text_member("name", self.name.as_str())?;
        out.text_member("owner", self.owner.as_str())?;
        out.end_object()
    }
}

/// Writes a part of the boards.
pub fn write_boards(out: &mut JsonText, boards: &[ToldBoard], total: u64) -> Result<(), Memory>
    ensures { OnOk result (out.new ≡ after (boards_data boards.now total) out.old) }
{
    out.begin_object()?;
    out.key("boards")?;
    write_list(out, boards)?;
    out.number_member("total", total)?;
    out.end_object()
}

impl Listed for ToldBoard {
    ghost as_data = { told_board_data };

    fn write(&self, out: &mut JsonText) -> Result<(), Memory> {
        out.begin_object()?;
        out.number_member("board", u64::from(self.board.0))?;
        out.number_member("filter", u64::from(self.filter.0))?;
        out.text_member("name", self.name.as_str())?;
        out.end_object()
    }
}

/// Writes a part of the sprints.
pub fn write_sprints(out: &mut JsonText, sprints: &[ToldSprint], total: u64) -> Result<(), Memory>
    ensures { OnOk result (out.new ≡ after (sprints_data sprints.now total) out.old) }
{
    out.begin_object()?;
    out.key("sprints")?;
    write_list(out, sprints)?;
    out.number_member("total", total)?;
    out.end_object()
}

impl Listed for ToldSprint {
    ghost as_data = { told_sprint_data };

    fn write(&self, out: &mut JsonText) -> Result<(), Memory> {
        out.begin_object()?;
        out.text_member("name", self.name.as_str())?;
        out.number_member("sprint", u64::from(self.sprint.0))?;
        out.text_member("state", phase_name(self.state))?;
        out.end_object()
    }
}
