// The writing of responses.
ghost use Rattle.std.specs.Prelude.{◌≡◌, ◌≤◌, ℕ, List, IfOk};
ghost use Rattle.request_lines.specs.Causes.{Rose};
ghost use Rattle.tracker_server.specs.Sending.{IsSent};

use field_values::Memory;
use request_lines::{Failed, Sink, write_all};

/// How the sending of a response went.
#[derive(Clone, Copy, PartialEq, Eq)]
pub enum Sent {
    /// All of it is written.
    Whole,

    /// The sink failed.
    Failed,

    /// There was not enough memory for it.
    Memory,
}

/// Writes a response, where there was memory for it.
pub fn send<T: Sink>(sink: &mut T, response: Result<Vec<u8>, Memory>) -> Sent
    ensures bytes { (text : List ℕ) → IfOk response (λ bytes. bytes.items ≡ text)
        → IsSent (T.taken sink.old) (T.taken sink.new) result text }
    ensures failed { result ≡ Sent.Failed → Rose (T.faults sink.old) (T.faults sink.new) }
    ensures later { T.faults sink.old ≤ T.faults sink.new }
{
    let Ok(bytes) = response else {
        return Sent::Memory;
    };
    match write_all(sink, &bytes) {
        Ok(()) => Sent::Whole,
        Err(Failed) => Sent::Failed,
    }
}
