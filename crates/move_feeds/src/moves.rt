//! What is put out.

use field_values::IssueNo;

/// An issue comes into a set, or goes out of it.
#[derive(Clone, Copy, PartialEq, Eq)]
pub struct Change {
    pub issue: IssueNo,
    /// It comes in.
    pub entered: bool,
}

/// A change with its number.
#[derive(Clone, Copy, PartialEq, Eq)]
pub struct Move {
    pub number: u64,
    pub issue: IssueNo,
    /// It comes in.
    pub entered: bool,
}
