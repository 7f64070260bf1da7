//! Which rows are a tracker's, and which row is the first bad one, for contracts alone: what rows make that are read one
//! after the other, and what is asked of each.
#![tactic(auto)]

mod laws;

pub use laws::{
    first_rows_are_migrated, good_rows_lead_on, loaded_rows_are_a_tracker, rows_load_or_are_bad,
    trackers_load,
};
