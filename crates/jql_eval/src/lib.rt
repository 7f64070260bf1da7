//! Whole queries: whether one holds of an issue and until when that stays, and the order in which it lists issues.
#![tactic(auto)]

mod laws;
mod number;
mod order;
mod query;
mod standing;
mod truth;
mod verdict;

pub use laws::{order_of_issues, right_verdicts, sprints_of_issues};
pub use order::{compare, directed};
pub use query::evaluate;
pub use standing::{Standing, category_standing, standing_cmp, standing_of};
pub use truth::holds;
pub use verdict::Verdict;
