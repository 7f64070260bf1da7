//! Where the fault of a text that is no setup is to be looked for, as a help for whoever wrote it.
#![tactic(auto)]

mod help;
mod keeping;
mod lacking;
mod line;
pub mod place;
#[cfg(test)]
mod tests;

pub use help::help_on;
pub use keeping::Keeping;
pub use place::Place;
