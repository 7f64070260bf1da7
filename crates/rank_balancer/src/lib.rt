//! Moving all ranks of an order from one bucket to the next, a few picks at a time.
#![tactic(auto)]

mod balance;
pub mod laws;
mod plan;
mod search;
mod step;

pub use balance::{Balance, BalanceIs};
pub use search::{left, pick};
pub use step::{StepPlan, apply, plan_step};
