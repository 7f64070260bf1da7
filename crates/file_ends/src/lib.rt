//! How a run over files ends: what is committed is copied into the database file, which is whole by itself then.
#![tactic(auto)]

mod copying;
mod ended;
mod ending;

pub use ended::Ended;
pub use ending::end_files;
