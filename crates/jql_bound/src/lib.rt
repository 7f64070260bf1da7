//! Queries tied to a setup: their conditions with names replaced by numbers and NOT pushed to the leaves, the keys that issues are
//! sorted by, and what beside an issue decides whether a condition holds of it.
#![tactic(auto)]

mod cond;
mod context;
mod leaf;
mod operand;
mod order;
mod past;

pub use cond::{Bound, Cond};
pub use context::{Context, Phase};
pub use leaf::{Inequality, Leaf, Operator, Subject, Word};
pub use operand::Operand;
pub use order::{Direction, OrderBy, OrderKey, SortField};
pub use past::{Endpoint, PastLeaf, PastPredicate, PastTest};
