//! The setup as the desk keeps it, with what queries ask of it.
#![tactic(auto)]

mod setting;

pub use setting::{Setting, context_with, copy_members};
