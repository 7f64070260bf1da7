ghost use Rattle.request_lines.specs.Causes.{HasCause};
ghost use Rattle.request_lines.specs.Bytes.{WritesAll};

use crate::outside::{Failed, Sink};

/// Writes all the bytes, or a front of them where the sink fails.
pub fn write_all<T: Sink>(out: &mut T, bytes: &[u8]) -> Result<(), Failed>
    ensures bytes { WritesAll (T.taken out.old) (T.taken out.new) result bytes.now }
    ensures cause { HasCause (T.faults out.old) (T.faults out.new) result }
{
    let mut rest = bytes;
    while !rest.is_empty() {
        let count = out.write(rest)?;
        let (_, later) = rest.split_at(count);
        rest = later;
    }
    Ok(())
}
