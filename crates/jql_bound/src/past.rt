// What a condition asks of the past.
use crate::operand::Operand;
use field_values::{FieldNo, Sequence};
use relative_dates::Term;

/// A window of moments, or the authors of what is looked for.
pub enum PastPredicate {
    /// Later than the date's second.
    After(Term),
    /// Earlier than the date's second.
    Before(Term),
    /// In the local day of the date's second.
    On(Term),
    /// From the one date's second to the other's.
    During(Term, Term),
    /// By one of these users.
    By(Sequence<Operand>),
}

// Written by hand, so that whoever lets one go makes one call, and its proof takes one step there.
impl Drop for PastPredicate {
    fn drop(self) {
        match self {
            PastPredicate::After(_)
            | PastPredicate::Before(_)
            | PastPredicate::On(_)
            | PastPredicate::During(_, _)
            | PastPredicate::By(_) => {}
        }
    }
}

/// A side of a change.
pub enum Endpoint {
    /// Away from one of these.
    From(Sequence<Operand>),
    /// To one of these.
    To(Sequence<Operand>),
}

// Written by hand, so that whoever lets one go makes one call, and its proof takes one step there.
impl Drop for Endpoint {
    fn drop(self) {
        match self {
            Endpoint::From(_) | Endpoint::To(_) => {}
        }
    }
}

/// What is looked for in the field's history.
#[derive(Drop)]
pub enum PastTest {
    /// A span of one of the operands.
    Was(Sequence<Operand>),
    /// No such span.
    WasNot(Sequence<Operand>),
    /// A change with all these sides.
    Changed(Sequence<Endpoint>),
    /// No such change.
    NotChanged(Sequence<Endpoint>),
}

/// A comparison with the past: the one span or change that is looked for, or looked for in vain, meets all predicates.
pub struct PastLeaf {
    pub field: FieldNo,
    pub test: PastTest,
    pub predicates: Sequence<PastPredicate>,
}

// Written by hand, so that whoever lets one go makes one call, and its proof takes one step there.
impl Drop for PastLeaf {
    fn drop(self) {
        let PastLeaf {
            field: _,
            test: _,
            predicates: _,
        } = self;
    }
}
