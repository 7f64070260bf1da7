//! Servers over what a tracker's rows are kept in: a file, or memory.
#![tactic(auto)]

mod file_keeper;
mod serving;

pub use file_keeper::FileKeeper;
pub use serving::{serve_file, serve_memory};
