// What is written on a text that is no setup.
ghost use Rattle.std.specs.Prelude.{◌≡◌, ◌≢◌, ◌⊎◌, ◌≤◌};
ghost use Rattle.std.specs.Io.KnownBytes.{Appends};
ghost use Rattle.setup_drafts.specs.declared.fault.SetupFault.{SetupFault};
ghost use Rattle.request_lines.specs.Causes.{Rose};
ghost use Rattle.status_texts.specs.Texts.{setup_line};
ghost use Rattle.status_texts.specs.Written.{GrewByFront};

use crate::texts::setup_line;
use request_lines::{Failed, Sink, write_all};
use setup_drafts::SetupFault;
use std::alloc::Global;

/// The most bytes of a setup.
pub const SETUP_LIMIT: usize = 1_048_576;

/// Writes why the text is no setup: 8, or 3 where the sink failed on it, or 6 where there was no memory and nothing was written.
pub fn tell_fault<T: Sink>(alloc: Global, out: &mut T, fault: SetupFault) -> u8
    // The status tells what was written: the whole text, a front of it, or nothing. Want of memory
    // has no text.
    ensures told { result ≡ 8
        → (fault ≢ SetupFault.Memory)
        × Appends (T.taken out.old) (T.taken out.new) (setup_line fault) }
    ensures written { result ≡ 3 → (fault ≢ SetupFault.Memory)
        × GrewByFront (T.taken out.old) (T.taken out.new) (λ due. due ≡ setup_line fault) }
    ensures memory { result ≡ 6 → T.taken out.new ≡ T.taken out.old }
    // A sink that is blamed has failed, and its count of that never falls.
    ensures write_cause { result ≡ 3 → Rose (T.faults out.old) (T.faults out.new) }
    ensures later { T.faults out.old ≤ T.faults out.new }
    // There is no other status.
    ensures statuses { (result ≡ 3) ⊎ (result ≡ 6) ⊎ (result ≡ 8) }
{
    if let SetupFault::Memory = &fault {
        return 6;
    }
    let Ok(text) = setup_line(alloc, &fault) else {
        return 6;
    };
    match write_all(out, text.as_str().as_bytes()) {
        Ok(()) => 8,
        Err(Failed) => 3,
    }
}
