// What is written beside the replies where a status tells something.
ghost use Rattle.std.specs.Prelude.{◌≡◌, IfOk};
ghost use Rattle.tracker_cli.specs.Texts.{csv_line, load_line};

use field_values::{Memory, Text};
use std::alloc::Global;
use tracker_import::LoadSummary;

/// Which record of a CSV is bad.
pub fn csv_line(alloc: Global, number: u64) -> Result<Text, Memory>
    ensures { IfOk result (λ text. text ≡ csv_line number) }
{
    Ok(Text::of(format!(in alloc; "csv {number}\n")?))
}

/// What a load comes to.
pub fn load_line(alloc: Global, summary: &LoadSummary) -> Result<Text, Memory>
    ensures { IfOk result (λ text. text ≡ load_line summary.now) }
{
    let calls = summary.calls;
    let refused = summary.refused;
    let members = summary.members;
    let left = summary.left;
    let bucket = summary.bucket;
    Ok(Text::of(format!(in alloc;
        "calls {calls} refused {refused} members {members} left {left} bucket {bucket}\n"
    )?))
}
