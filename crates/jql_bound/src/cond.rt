// Conditions and whole queries.
use crate::leaf::Leaf;
use crate::order::OrderBy;
use crate::past::PastLeaf;

/// A condition.
#[derive(Drop)]
pub enum Cond {
    /// All of these hold.
    All(Vec<Cond>),
    /// One of these holds.
    Any(Vec<Cond>),
    Now(Leaf),
    Past(PastLeaf),
}

/// A query that is tied to a setup.
pub struct Bound {
    /// The condition; a query without one holds of every issue.
    pub cond: Option<Cond>,
    pub order: OrderBy,
}

// Written by hand, so that whoever lets one go makes one call, and its proof takes one step there.
impl Drop for Bound {
    fn drop(self) {
        let Bound { cond: _, order: _ } = self;
    }
}
