// What is written on a row that is bad.
ghost use Rattle.std.specs.Prelude.{◌≡◌, ◌⊎◌, ◌≤◌};
ghost use Rattle.std.specs.Io.KnownBytes.{Appends};
ghost use Rattle.request_lines.specs.Causes.{Rose};
ghost use Rattle.status_texts.specs.Texts.{kept_line};
ghost use Rattle.status_texts.specs.Written.{GrewByFront};

use crate::texts::kept_line;
use request_lines::{Failed, Sink, write_all};
use std::alloc::Global;

/// Writes which row is bad: 5, or 3 where the sink failed on it, or 6 where there was no memory for it and nothing was written.
pub fn tell_row<T: Sink>(alloc: Global, out: &mut T, kind: u8, no: u64) -> u8
    // The status tells what was written: the whole text, a front of it, or nothing.
    ensures told { result ≡ 5 → Appends (T.taken out.old) (T.taken out.new) (kept_line kind no) }
    ensures written { result ≡ 3
        → GrewByFront (T.taken out.old) (T.taken out.new) (λ due. due ≡ kept_line kind no) }
    ensures memory { result ≡ 6 → T.taken out.new ≡ T.taken out.old }
    // A sink that is blamed has failed, and its count of that never falls.
    ensures write_cause { result ≡ 3 → Rose (T.faults out.old) (T.faults out.new) }
    ensures later { T.faults out.old ≤ T.faults out.new }
    // There is no other status.
    ensures statuses { (result ≡ 3) ⊎ (result ≡ 5) ⊎ (result ≡ 6) }
{
    let Ok(text) = kept_line(alloc, kind, no) else {
        return 6;
    };
    match write_all(out, text.as_str().as_bytes()) {
        Ok(()) => 5,
        Err(Failed) => 3,
    }
}
