// That rows have the form that their types give them.
ghost use Rattle.std.specs.List.{All};
ghost use Rattle.row_dumps.specs.Dump.{HasForm};

use tracker_keeper::Row;

/// Rows have the form that their types give them: each kind is a byte, and each text UTF-8. This only walks over them.
pub fn rows_have_form(rows: &[Row])
    ensures { All HasForm rows.now }
{
    for row in rows {
        has_form(row);
    }
}

fn has_form(row: &Row)
    ensures { HasForm row.now }
{
    let _kind = row.kind;
    let _text = row.body.as_str();
}
