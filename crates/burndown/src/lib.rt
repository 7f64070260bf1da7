//! The remaining work of each sprint: one total a sprint, and a row for each change group that changed it while the sprint was active.
#![tactic(auto)]

mod burndown;
mod group;
pub mod laws;
mod places;
mod progress;
mod share;

pub use burndown::Burndown;
pub use share::{BurnRow, Share};

#[cfg(test)]
mod tests;
