//! What an event may have changed of the lists of filters.
#![tactic(auto)]

mod changed;

pub use changed::Changed;
