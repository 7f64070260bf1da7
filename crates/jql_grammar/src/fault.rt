// Why a query can't be bound to a setup.
ghost use Rattle.std.specs.Prelude.{◌≡◌};
ghost use Rattle.jql_grammar.specs.Binding.{number_of_kind};
ghost use Rattle.jql_grammar.specs.declared.fault.Stop.TheVariants.{Memory as StopMemory};
ghost use Rattle.jql_grammar.specs.declared.fault.BindFault.TheVariants.{Memory as BindMemory};

use fields::Memory;
use std::alloc::{AllocError, AllocFailed};

/// What is wrong with a test or a sort key.
#[derive(Clone, Copy, PartialEq, Eq)]
pub(crate) enum FaultKind {
    UnknownField,
    UnknownValue,
    OperatorNotForField,
    UnknownFunction,
    UnknownUserOrGroup,
}

impl FaultKind {
    /// The number by which it is told.
    pub(crate) fn number(self) -> u8
        ensures { result ≡ number_of_kind self }
    {
        match self {
            FaultKind::UnknownField => 11,
            FaultKind::UnknownValue => 12,
            FaultKind::OperatorNotForField => 13,
            FaultKind::UnknownFunction => 14,
            FaultKind::UnknownUserOrGroup => 15,
        }
    }
}

/// Why a test or a sort key wasn't bound.
#[derive(Clone, Copy, PartialEq, Eq)]
pub(crate) enum Stop {
    Memory,
    At(FaultKind),
}

impl From<Memory> for Stop {
    ghost from_gives = { λ _ e. e ≡ StopMemory };

    fn from(_: Memory) -> Stop {
        Stop::Memory
    }
}

impl From<AllocError> for Stop {
    ghost from_gives = { λ _ e. e ≡ StopMemory };

    fn from(_: AllocError) -> Stop {
        Stop::Memory
    }
}

impl<T: Drop> From<AllocFailed<T>> for Stop {
    ghost from_gives = { λ _ e. e ≡ StopMemory };

    fn from(_: AllocFailed<T>) -> Stop {
        Stop::Memory
    }
}

/// Why a query can't be bound to a setup.
#[derive(Clone, Copy, PartialEq, Eq)]
pub enum BindFault {
    /// The first test at fault, counted from 0 and from the left, or the first sort key at fault, counted on after all tests;
    /// and what is wrong: 11 no such field, 12 no such value in the field, 13 an operator or an order that the field hasn't,
    /// 14 no such function, or one that has no place here, 15 no such user or group.
    Bad { place: usize, kind: u8 },
    /// There was not enough memory.
    Memory,
}

impl From<Memory> for BindFault {
    ghost from_gives = { λ _ e. e ≡ BindMemory };

    fn from(_: Memory) -> BindFault {
        BindFault::Memory
    }
}

impl From<AllocError> for BindFault {
    ghost from_gives = { λ _ e. e ≡ BindMemory };

    fn from(_: AllocError) -> BindFault {
        BindFault::Memory
    }
}

impl<T: Drop> From<AllocFailed<T>> for BindFault {
    ghost from_gives = { λ _ e. e ≡ BindMemory };

    fn from(_: AllocFailed<T>) -> BindFault {
        BindFault::Memory
    }
}
