// What issues are sorted by.
use crate::leaf::Subject;
use field_values::Sequence;

/// What of an issue it is sorted by.
#[derive(Clone, Copy, PartialEq, Eq)]
pub enum SortField {
    Subject(Subject),
    /// The category of the status.
    StatusCategory,
    /// The place in the order of ranks.
    Rank,
}

/// Whether the least or the greatest comes first.
#[derive(Clone, Copy, PartialEq, Eq)]
pub enum Direction {
    Ascending,
    Descending,
}

/// A sort key.
#[derive(Clone, Copy, PartialEq, Eq)]
pub struct OrderKey {
    pub field: SortField,
    pub direction: Direction,
}

/// The sort keys, the one that decides first in front.
#[derive(Drop)]
pub struct OrderBy {
    pub keys: Sequence<OrderKey>,
}
