//! Short texts: whether two are the same, and how they stand in the order of their bytes.
#![tactic(auto)]

mod short_text;

pub use short_text::{is_same, order_of};
