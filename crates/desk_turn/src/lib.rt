//! A turn over a value that threads share: each caller waits for its turn, makes its call while
//! it has the value to itself, and knows afterwards where the call stands in the one history.
#![tactic(auto)]

mod entry;
mod join;
mod kept;
mod pass;
mod plays;
mod receipt;
mod rule;
mod split;
mod steps;
mod tell;
mod turn;
mod view;

pub use entry::Entry;
pub use kept::{Kept, Memory};
pub use pass::Pass;
pub use receipt::Receipt;
pub use turn::Turn;
