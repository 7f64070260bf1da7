//! What a call gives for an issue's fields, what it wants of them, and how many text bytes that brings.
#![tactic(auto)]

mod in_sprint;
mod names;
mod resolved;
mod wants;
mod weight;

pub use in_sprint::{is_in, sprint_after};
pub use names::{UnknownName, first_unknown_name, missing_sprint, sprint_given};
pub use resolved::{ResolvedName, ResolvedSet};
pub use wants::{Opening, Outcome, outcome_of_all};
pub use weight::{bytes_of_changes, bytes_of_entries, fitting_is_light};
