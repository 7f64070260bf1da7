//! The abstract tracker, for contracts alone: its state, what a call means (its first refusal, its answer
//! and its effect), and the step. It knows whole histories and nothing that is derived from them.
#![tactic(auto)]

mod laws;
mod wanted;

pub use laws::{
    effects_keep_trackers, first_name_is_least, operations_are_small, operations_keep_effects,
    parts_may_be_kept,
};
pub use wanted::Wanted;
