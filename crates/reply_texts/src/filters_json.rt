// The JSON of answers about saved filters and boards.
ghost use Rattle.std.specs.Prelude.{◌≡◌, OnOk};
ghost use Rattle.reply_texts.specs.Reply.{save_filter_data, filter_number_data};
ghost use Rattle.reply_texts.specs.Reply.{board_number_data, column_data, board_data};
ghost use Rattle.json_texts.specs.JsonTokens.{after};

use crate::list_json::{Listed, write_list};
use field_values::{BoardNo, FilterNo, Memory};
use json_texts::JsonText;
use tracker_calls::Column;

/// Writes a filter's number, and of how many issues its query holds.
pub fn write_save_filter(out: &mut JsonText, filter: FilterNo, members: u64) -> Result<(), Memory>
    ensures { OnOk result (out.new ≡ after (save_filter_data filter.0 members) out.old) }
{
    out.begin_object()?;
    out.number_member("filter", u64::from(filter.0))?;
    out.number_member("members", members)?;
    out.end_object()
}

/// Writes a filter's number.
pub fn write_filter_number(out: &mut JsonText, filter: FilterNo) -> Result<(), Memory>
    ensures { OnOk result (out.new ≡ after (filter_number_data filter.0) out.old) }
{
    out.begin_object()?;
    out.number_member("filter", u64::from(filter.0))?;
    out.end_object()
}

/// Writes a board's number.
pub fn write_board_number(out: &mut JsonText, board: BoardNo) -> Result<(), Memory>
    ensures { OnOk result (out.new ≡ after (board_number_data board.0) out.old) }
{
    out.begin_object()?;
    out.number_member("board", u64::from(board.0))?;
    out.end_object()
}

/// Writes a part of a board.
pub fn write_board(out: &mut JsonText, columns: &[Column], total: u64) -> Result<(), Memory>
    ensures { OnOk result (out.new ≡ after (board_data columns.now total) out.old) }
{
    out.begin_object()?;
    out.key("columns")?;
    write_list(out, columns)?;
    out.number_member("total", total)?;
    out.end_object()
}

// A status and the issues that have it.
impl Listed for Column {
    ghost as_data = { column_data };

    fn write(&self, out: &mut JsonText) -> Result<(), Memory> {
        out.begin_object()?;
        out.key("issues")?;
        out.texts(self.issues.as_slice())?;
        out.text_member("status", self.status.as_str())?;
        out.end_object()
    }
}
