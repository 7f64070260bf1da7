// A text that is written where a status tells something.
ghost use Rattle.std.specs.Prelude.{◌≡◌, ◌≢◌, ◌⊎◌, ◌≤◌};
ghost use Rattle.std.specs.Io.KnownBytes.{Appends};
ghost use Rattle.request_lines.specs.Causes.{Rose};
ghost use Rattle.status_texts.specs.Written.{GrewByFront};

use request_lines::{Failed, Sink, write_all};

/// Writes a text: this status, or 3 where the sink failed on it.
pub fn tell<T: Sink>(out: &mut T, text: &[u8], status: u8) -> u8
    requires { status ≢ 3 }
    // The status tells what was written: the whole text, or a front of it.
    ensures told { result ≡ status → Appends (T.taken out.old) (T.taken out.new) text.now }
    ensures written { result ≡ 3
        → GrewByFront (T.taken out.old) (T.taken out.new) (λ due. due ≡ text.now) }
    // A sink that is blamed has failed, and its count of that never falls.
    ensures write_cause { result ≡ 3 → Rose (T.faults out.old) (T.faults out.new) }
    ensures later { T.faults out.old ≤ T.faults out.new }
    // There is no other status.
    ensures statuses { (result ≡ status) ⊎ (result ≡ 3) }
{
    match write_all(out, text) {
        Ok(()) => status,
        Err(Failed) => 3,
    }
}
