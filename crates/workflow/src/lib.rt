//! Transitions: who may make them, what they ask of the issue, and what they change.
#![tactic(auto)]

mod conditions;
mod fault;
mod inputs;
pub mod laws;
mod net;
mod planning;
mod post_functions;
mod project;
mod same;
mod validators;

pub use conditions::failing_condition;
pub use fault::PlanFault;
pub use inputs::refused_input;
pub use net::net_changes;
pub use planning::{plan, planned};
pub use project::project_number;
pub use same::{is_empty, is_same};
pub use validators::failing_validator;
