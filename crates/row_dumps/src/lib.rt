//! What a text of rows is restored as.
#![tactic(auto)]

mod formed;
pub mod laws;

pub use formed::rows_have_form;
