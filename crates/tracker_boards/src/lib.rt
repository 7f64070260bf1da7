//! The boards of a tracker, as one part of a desk's state.
#![tactic(auto)]

mod boards;

pub use boards::Boards;
