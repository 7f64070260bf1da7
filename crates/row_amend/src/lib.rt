//! Rows whose setup is amended: another text takes the place of the one that they have, all in one commit, where they are a tracker's then.
#![tactic(auto)]

mod amending;
mod fault;
mod kept_members;
mod operations;
mod trial;

pub use amending::amend;
pub use fault::AmendFault;
