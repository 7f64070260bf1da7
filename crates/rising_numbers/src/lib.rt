//! Things that stand in a list by rising numbers.
#![tactic(auto)]

pub mod laws;
mod lookup;
mod numbered;

pub use lookup::{find, free_number, put_in, take_out};
pub use numbered::Numbered;
