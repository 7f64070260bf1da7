//! What an event may have changed.

use field_values::FilterNo;

/// Of which issues or filters the lists may have changed.
#[derive(Clone, Copy, PartialEq, Eq)]
pub enum Changed {
    /// No list has.
    Nothing,
    /// Only the issue at this place may have come in or gone out, anywhere.
    Issue(usize),
    /// Only the lists of this filter may have changed.
    Filter(FilterNo),
    Anything,
}
