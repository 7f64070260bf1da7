//! The text of the reply to a show or a list, written from the state, so that nothing that it tells is copied before.
#![tactic(auto)]

mod list;
mod show;
mod written_list;
mod written_show;
mod written_value;

pub use list::write_list;
pub use show::write_show;
