//! The words `dump` and `restore`: all rows of a keeper as lines, and lines as the rows of a keeper that has none.
#![tactic(auto)]

mod command;
mod dump;
mod restore;
mod telling;
mod words;

pub use command::{back_up, is_backup};
