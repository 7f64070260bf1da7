// What is written where a keeper has rows already.
ghost use Rattle.std.specs.Prelude.{◌≡◌, ◌⊎◌, ◌≤◌};
ghost use Rattle.std.specs.Io.KnownBytes.{Appends};
ghost use Rattle.request_lines.specs.Causes.{Rose};
ghost use Rattle.tracker_cli.specs.Outcome.{GrewByFront, held};

use request_lines::{Failed, Sink, write_all};

/// Writes that the keeper has rows already: 9, or 3 where the sink failed on it.
pub(crate) fn tell_held<T: Sink>(out: &mut T) -> u8
    ensures told { result ≡ 9 → Appends (T.taken out.old) (T.taken out.new) held }
    ensures written { result ≡ 3
        → GrewByFront (T.taken out.old) (T.taken out.new) (λ due. due ≡ held) }
    ensures write_cause { result ≡ 3 → Rose (T.faults out.old) (T.faults out.new) }
    ensures later { T.faults out.old ≤ T.faults out.new }
    ensures statuses { (result ≡ 3) ⊎ (result ≡ 9) }
{
    match write_all(out, b"held\n") {
        Ok(()) => 9,
        Err(Failed) => 3,
    }
}
