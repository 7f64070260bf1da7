//! A run over the files at a path: what it begins in, how it ends, and what it leaves for the next.
#![tactic(auto)]

mod ending;
mod run;

pub use ending::end_run;
pub use run::run_over_files;
