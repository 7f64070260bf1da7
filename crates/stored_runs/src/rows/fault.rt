// Why a line has no answer.
use field_values::Memory;
use jql_grammar::BindFault;
use jql_syntax::JqlFault;
use std::alloc::AllocError;
use std::fmt;

/// Why a line has no answer.
#[derive(Clone, Copy)]
pub enum Fault {
    /// It is no row.
    NoRow,
    /// Its query has this fault.
    Query { place: usize, kind: u8 },
    /// There was not enough memory.
    Memory,
}

impl fmt::Display for Fault {
    fn fmt<W: fmt::Write>(&self, f: &mut fmt::Formatter<W>) -> fmt::Result {
        match self {
            Fault::NoRow => write!(f, "no row"),
            Fault::Query { place, kind } => write!(f, "fault {place} {kind}"),
            Fault::Memory => write!(f, "no memory"),
        }
    }
}

impl From<Memory> for Fault {
    fn from(_: Memory) -> Fault {
        Fault::Memory
    }
}

impl From<AllocError> for Fault {
    fn from(_: AllocError) -> Fault {
        Fault::Memory
    }
}

impl From<JqlFault> for Fault {
    fn from(fault: JqlFault) -> Fault {
        match fault {
            JqlFault::Bad { place, kind } => Fault::Query { place, kind },
            JqlFault::Memory => Fault::Memory,
        }
    }
}

impl From<BindFault> for Fault {
    fn from(fault: BindFault) -> Fault {
        match fault {
            BindFault::Bad { place, kind } => Fault::Query { place, kind },
            BindFault::Memory => Fault::Memory,
        }
    }
}
