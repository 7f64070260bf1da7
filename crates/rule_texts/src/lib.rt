//! The one text of each rule of a transition, by the names of its setup.
#![tactic(auto)]

mod conditions;
mod named;
mod post_functions;
mod validators;

pub use conditions::condition_text;
pub use post_functions::post_text;
pub use validators::validator_text;
