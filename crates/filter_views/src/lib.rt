//! The kept verdicts of saved filters on issues, and a heap of the moments at which they end.
#![tactic(auto)]

mod due;
mod ends;
mod filter_row;
mod heap;
pub mod laws;
mod rows;
mod views;

pub use due::Due;
pub use views::FilterViews;

#[cfg(test)]
mod tests;
