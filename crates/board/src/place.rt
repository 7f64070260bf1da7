//! Where an issue is to stand.

use field_values::IssueNo;

/// A place in the order of issues, which runs from the least rank, the top of a board, to the greatest.
#[derive(Clone, Copy, PartialEq, Eq)]
pub enum Place {
    /// Just before this issue.
    Before(IssueNo),
    /// Just after this issue.
    After(IssueNo),
    /// After all issues.
    Last,
}
