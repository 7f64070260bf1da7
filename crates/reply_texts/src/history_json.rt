// The JSON of a part of an issue's history.
ghost use Rattle.std.specs.Prelude.{◌≡◌, OnOk};
ghost use Rattle.reply_texts.specs.Reply.{history_data, entry_data, shown_or_null};
ghost use Rattle.json_texts.specs.JsonTokens.{after};

use crate::list_json::{Listed, write_list};
use crate::show_json::write_shown;
use field_values::Memory;
use json_texts::JsonText;
use tracker_calls::{Shown, ToldEntry};

/// Writes a part of a history.
pub fn write_history(out: &mut JsonText, entries: &[ToldEntry], total: u64) -> Result<(), Memory>
    ensures { OnOk result (out.new ≡ after (history_data entries.now total) out.old) }
{
    out.begin_object()?;
    out.key("entries")?;
    write_list(out, entries)?;
    out.number_member("total", total)?;
    out.end_object()
}

impl Listed for ToldEntry {
    ghost as_data = { entry_data };

    fn write(&self, out: &mut JsonText) -> Result<(), Memory> {
        out.begin_object()?;
        out.number_member("at", self.at.seconds())?;
        out.text_member("by", self.by.as_str())?;
        out.number_member("change", self.change)?;
        out.text_member("field", self.field.as_str())?;
        out.key("from")?;
        write_shown_or_null(out, &self.from)?;
        out.key("to")?;
        write_shown_or_null(out, &self.to)?;
        out.end_object()
    }
}

fn write_shown_or_null(out: &mut JsonText, shown: &Option<Shown>) -> Result<(), Memory>
    ensures { OnOk result (out.new ≡ after (shown_or_null shown.now) out.old) }
{
    match shown {
        None => out.null(),
        Some(shown) => write_shown(out, shown),
    }
}
