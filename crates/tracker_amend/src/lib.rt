//! The word `amend`: a setup takes the place of the one that a tracker has.
#![tactic(auto)]

mod command;
mod words;

pub use command::amend_setup;
pub use words::is_amend;
