//! Lists of which the short ones lie in themselves.
#![tactic(auto)]

pub mod by_name;
mod places;
mod short_list;

pub use short_list::ShortList;
