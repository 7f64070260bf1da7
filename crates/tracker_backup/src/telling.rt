// What is written on a line that is none.
ghost use Rattle.std.specs.Prelude.{◌≡◌, ◌⊎◌, ◌≤◌, IfOk};
ghost use Rattle.std.specs.Io.KnownBytes.{Appends};
ghost use Rattle.request_lines.specs.Causes.{Rose};
ghost use Rattle.row_lines.specs.Writing.{WritesFront};
ghost use Rattle.tracker_backup.specs.Ends.{bad_line};

use field_values::{Memory, Text};
use request_lines::{Failed, Sink, write_all};
use std::alloc::Global;

/// Writes which line is bad: 8, or 3 where the sink failed on it, or 6 where there was no memory for it and nothing was written.
pub(crate) fn tell_line<T: Sink>(alloc: Global, out: &mut T, number: u64) -> u8
    ensures told { result ≡ 8 → Appends (T.taken out.old) (T.taken out.new) (bad_line number) }
    ensures written { result ≡ 3
        → WritesFront (T.taken out.old) (T.taken out.new) (bad_line number) }
    ensures memory { result ≡ 6 → T.taken out.new ≡ T.taken out.old }
    ensures cause { result ≡ 3 → Rose (T.faults out.old) (T.faults out.new) }
    ensures later { T.faults out.old ≤ T.faults out.new }
    ensures statuses { (result ≡ 3) ⊎ (result ≡ 6) ⊎ (result ≡ 8) }
{
    let Ok(text) = bad_line(alloc, number) else {
        return 6;
    };
    match write_all(out, text.as_str().as_bytes()) {
        Ok(()) => 8,
        Err(Failed) => 3,
    }
}

fn bad_line(alloc: Global, number: u64) -> Result<Text, Memory>
    ensures { IfOk result (λ text. text ≡ bad_line number) }
{
    Ok(Text::of(format!(in alloc; "row {number}\n")?))
}
