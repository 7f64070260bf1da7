//! Rows as lines of text, and lines of text as rows.
#![tactic(auto)]

pub mod laws;
mod line;
mod members;
mod reading;
mod writing;

pub use line::{push_line, read_line};
pub use reading::{LinesFault, read_rows};
pub use writing::{WriteEnd, write_rows};
