//! Sprints: each is future, then active, then closed, and nothing else follows.
#![tactic(auto)]

pub mod laws;
mod sprint;
mod sprints;
mod state;

pub use sprint::Sprint;
pub use sprints::Sprints;
pub use state::{SprintFault, SprintState};
