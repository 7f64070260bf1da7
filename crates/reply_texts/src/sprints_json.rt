// The JSON of answers about sprints, and the word of how far one is.
ghost use Rattle.std.specs.Prelude.{◌≡◌, OnOk};
ghost use Rattle.reply_texts.specs.Reply.{make_sprint_data, sprint_phase_data, burned_data};
ghost use Rattle.reply_texts.specs.Reply.{burndown_data};
ghost use Rattle.json_texts.specs.JsonTokens.{after};

use crate::list_json::{Listed, write_list};
use crate::words::phase_name;
use field_values::{Memory, SprintNo};
use json_texts::JsonText;
use tracker_calls::{BurnedRow, SprintPhase};

/// Writes a new sprint's number.
pub fn write_make_sprint(out: &mut JsonText, sprint: SprintNo) -> Result<(), Memory>
    ensures { OnOk result (out.new ≡ after (make_sprint_data sprint.0) out.old) }
{
    out.begin_object()?;
    out.number_member("sprint", u64::from(sprint.0))?;
    out.end_object()
}

/// Writes a sprint's number and how far it is.
pub fn write_sprint_phase(
    out: &mut JsonText,
    sprint: SprintNo,
    state: SprintPhase,
) -> Result<(), Memory>
    ensures { OnOk result (out.new ≡ after (sprint_phase_data sprint.0 state) out.old) }
{
    out.begin_object()?;
    out.number_member("sprint", u64::from(sprint.0))?;
    out.text_member("state", phase_name(state))?;
    out.end_object()
}

/// Writes a part of a burndown.
pub fn write_burndown(
    out: &mut JsonText,
    left: i64,
    rows: &[BurnedRow],
    start: i64,
    state: SprintPhase,
    total: u64,
) -> Result<(), Memory>
    ensures { OnOk result
        (out.new ≡ after (burndown_data left rows.now start state total) out.old) }
{
    out.begin_object()?;
    out.integer_member("left", left)?;
    out.key("rows")?;
    write_list(out, rows)?;
    out.integer_member("start", start)?;
    out.text_member("state", phase_name(state))?;
    out.number_member("total", total)?;
    out.end_object()
}

impl Listed for BurnedRow {
    ghost as_data = { burned_data };

    fn write(&self, out: &mut JsonText) -> Result<(), Memory> {
        out.begin_object()?;
        out.number_member("at", self.at.seconds())?;
        out.integer_member("by", self.by)?;
        out.number_member("change", self.change)?;
        out.text_member("issue", self.issue.as_str())?;
        out.integer_member("left", self.left)?;
        out.end_object()
    }
}
