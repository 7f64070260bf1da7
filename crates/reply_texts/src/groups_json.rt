// The JSON of answers about groups.
ghost use Rattle.std.specs.Prelude.{◌≡◌, OnOk};
ghost use Rattle.reply_texts.specs.Reply.{set_group_data};
ghost use Rattle.json_texts.specs.JsonTokens.{after};

use field_values::{Memory, Text};
use json_texts::JsonText;

/// Writes a group's name and how many members it has.
pub fn write_set_group(out: &mut JsonText, group: &Text, members: u64) -> Result<(), Memory>
    ensures { OnOk result (out.new ≡ after (set_group_data group.now members) out.old) }
{
    out.begin_object()?;
    out.text_member("group", group.as_str())?;
    out.number_member("members", members)?;
    out.end_object()
}
