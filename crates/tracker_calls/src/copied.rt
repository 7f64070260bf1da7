// Copies of sequences.
ghost use Rattle.std.specs.Prelude.{◌≡◌, IfOk};

use field_values::{Memory, Sequence};
use std::alloc::Global;

/// What can be copied, unless memory lacks.
pub(crate) trait Copied: Drop {
    /// Another of the same.
    fn copy(&self, alloc: Global) -> Result<Self, Memory>
        ensures { IfOk result (λ copy. copy ≡ self.now) };
}

/// The same things in the same order.
pub(crate) fn copy_all<T: Copied>(
    alloc: Global,
    things: &Sequence<T>,
) -> Result<Sequence<T>, Memory>
    ensures { IfOk result (λ copy. copy ≡ things.now) }
{
    let mut copy = Sequence::new(alloc);
    for thing in things.as_slice() {
        copy.push(thing.copy(alloc)?)?;
    }
    Ok(copy)
}
