ghost use Rattle.std.specs.Prelude.{◌≡◌};
ghost use Rattle.workflow.specs.declared.fault.PlanFault.{PlanFault};

use fields::{FieldNo, Memory};

/// Why a transition isn't made.
#[derive(Clone, Copy, PartialEq, Eq)]
pub enum PlanFault {
    /// This condition fails: 0 is that of the issue's status, and the setup's count from 1.
    Condition(usize),
    /// The input of this field is of the status, or its value doesn't fit.
    Value(FieldNo),
    /// This validator fails, counted from 1.
    Validator(usize),
    /// There was not enough memory.
    Memory,
}

impl From<Memory> for PlanFault {
    ghost from_gives = { λ m f. f ≡ PlanFault.Memory };

    fn from(_: Memory) -> Self
        ensures { result ≡ PlanFault.Memory }
    {
        PlanFault::Memory
    }
}
