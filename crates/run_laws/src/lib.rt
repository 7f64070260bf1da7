//! What is proved of the programs: of two runs together, and of the doors beside one another. No program calls anything of this.
#![tactic(auto)]

mod laws;
mod two_runs;
mod whole_run;

pub use laws::{
    amended_runs_tell_the_same, doors_reply_alike, exports_are_read_back, records_do_as_lines,
};
pub use two_runs::run_twice;
pub use whole_run::run_whole;
