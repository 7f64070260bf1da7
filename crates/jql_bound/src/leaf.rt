// What a condition asks of the present.
use crate::operand::Operand;
use field_values::{FieldNo, Sequence, Text};

/// What of an issue is compared.
#[derive(Clone, Copy, PartialEq, Eq)]
pub enum Subject {
    /// The value that the field holds.
    Field(FieldNo),
    /// The project.
    Project,
    /// The issue itself, by its key.
    Key,
    /// The moment of the creation.
    Created,
    /// The moment of the last change group.
    Updated,
}

/// How the field stands to an operand.
#[derive(Clone, Copy, PartialEq, Eq)]
pub enum Inequality {
    Less,
    LessOrEqual,
    Greater,
    GreaterOrEqual,
}

/// A word that is looked for in a text.
pub struct Word {
    pub text: Text,
    /// Whether it may be the beginning of a word.
    pub prefix: bool,
}

// Written by hand, so that whoever lets one go makes one call, and its proof takes one step there.
impl Drop for Word {
    fn drop(self) {
        let Word { text: _, prefix: _ } = self;
    }
}

/// What is asked of the field.
#[derive(Drop)]
pub enum Operator {
    /// One of the operands is the field's value, or one of its values. `=` has one operand.
    In(Sequence<Operand>),
    /// The field isn't empty, and none of the operands is its value, or one of its values. `!=` has one operand.
    NotIn(Sequence<Operand>),
    Compares(Inequality, Operand),
    /// The text isn't empty, and has each of the words.
    Contains(Sequence<Word>),
    /// The text isn't empty, and lacks one of the words.
    Lacks(Sequence<Word>),
    IsEmpty,
    IsNotEmpty,
}

/// A present comparison: of what, and what is asked of it. The category of a status is asked of the field status, by the
/// statuses of the category.
pub struct Leaf {
    pub subject: Subject,
    pub operator: Operator,
}

// Written by hand, so that whoever lets one go makes one call, and its proof takes one step there.
impl Drop for Leaf {
    fn drop(self) {
        let Leaf {
            subject: _,
            operator: _,
        } = self;
    }
}
