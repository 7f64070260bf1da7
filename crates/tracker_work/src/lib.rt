//! What remains of each sprint, and its burndown, as one part of a desk's state.
#![tactic(auto)]

mod groups;
pub mod laws;
mod load;
mod replay;
mod shares;
mod states;
mod told;
mod work;

pub use work::Work;
