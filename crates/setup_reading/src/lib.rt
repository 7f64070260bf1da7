//! The reading of a setup's text: its draft, and the numbers of all that its names name; or its first fault.
#![tactic(auto)]

pub mod built_in_text;
pub mod name_lists;
pub mod reading;
pub mod resolve;
pub mod resolve_transition;
pub mod resolved;
mod rules;

pub use built_in_text::BUILT_IN;
