// A whole input of limited length.
ghost use Rattle.std.specs.Prelude.{◌≡◌, ◌<◌, ◌≤◌, ◌^◌, Err, length, IfOk, IfSome};
ghost use Rattle.std.specs.Io.KnownBytes.{Consumes, IsAtEnd};
ghost use Rattle.request_lines.specs.Causes.{Rose};

use crate::outside::{Failed, Source};
use std::alloc::{AllocError, Global};

/// The bytes that a read is offered room for.
const ROOM: usize = 16_384;

/// Why an input wasn't read to its end.
#[derive(Clone, Copy, PartialEq, Eq)]
pub enum InputFault {
    /// The source failed.
    Failed,
    /// It has more bytes than it may have.
    TooLong,
    Memory,
}

/// All bytes that are left in the source, of which there may be so many.
pub fn read_whole<S: Source>(
    alloc: Global,
    source: &mut S,
    most: usize,
) -> Result<Vec<u8>, InputFault>
    // The limit is one of 32 bits.
    requires { most < 2 ^ 32 }
    // It has all bytes up to the end, and no more than the limit.
    ensures whole { IfOk result (λ bytes. Consumes (S.left source.old)
        (S.left source.new) bytes.items) }
    ensures end { IfOk result (λ bytes. IsAtEnd (S.left source.new)) }
    ensures within { IfOk result (λ bytes. length bytes.items ≤ most) }
    // It refuses for its length only what is longer, and tells a failure only where the source had
    // one.
    ensures long { result ≡ Err InputFault.TooLong
        → IfSome (S.left source.old) (λ bytes. most < length bytes) }
    ensures failed { result ≡ Err InputFault.Failed
        → Rose (S.faults source.old) (S.faults source.new) }
    ensures later { S.faults source.old ≤ S.faults source.new }
{
    let mut bytes = Vec::new(alloc);
    let Ok(mut room) = room(alloc) else {
        return Err(InputFault::Memory);
    };
    for _count in 0..most + 1 {
        let Ok(count) = source.read(&mut room) else {
            return Err(InputFault::Failed);
        };
        if count == 0 {
            return Ok(bytes);
        }
        if most - bytes.len() < count {
            return Err(InputFault::TooLong);
        }
        let Ok(()) = bytes.extend_from_slice(&room[..count]) else {
            return Err(InputFault::Memory);
        };
    }
    unreachable!()
}

// Room for what a read gives.
fn room(alloc: Global) -> Result<Vec<u8>, AllocError>
    ensures { IfOk result (λ room. 4096 ≤ length room.items) }
{
    vec![in alloc; 0; ROOM]
}
