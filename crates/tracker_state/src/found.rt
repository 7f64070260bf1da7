// An issue that was found.

use change_history::Issue;

/// An issue that was found: the place where it stands, and itself, lent.
#[derive(Clone, Copy)]
pub struct Found<'a> {
    pub place: usize,
    pub issue: &'a Issue,
}
