//! Dates of the years 1970 to 2099 by number of days since 1970-01-01, and their texts as yyyy-MM-dd.
#![tactic(auto)]

mod day;
pub mod laws;
mod read;
mod write;

pub use day::is_day;
pub use read::day_of;
pub use write::{date_text, push_date_text};
