//! The end of a cell, as it stands in the heap.
ghost use Rattle.std.specs.Prelude.{◌≡◌, IsTrue};
ghost use Rattle.filter_views.specs.Due.{is_before};

use field_values::{FilterNo, IssueNo, Moment};

/// The moment at which a filter's verdict on an issue ends. Ends are in order by moment, and those of one moment by filter and
/// then by issue.
#[derive(Clone, Copy, PartialEq, Eq, PartialOrd, Ord)]
pub struct Due {
    pub end: Moment,
    pub filter: FilterNo,
    pub issue: IssueNo,
}

impl Due {
    /// Whether this one comes before the other.
    pub(crate) fn is_before(&self, other: &Due) -> bool
        ensures { result ≡ is_before self.now other.now }
    {
        self.cmp(other).is_lt()
    }

    /// Whether it comes at this moment.
    pub(crate) fn ends_at(&self, end: Moment) -> bool
        ensures { IsTrue result → (self.now.end ≡ end) }
    {
        self.end == end
    }
}
