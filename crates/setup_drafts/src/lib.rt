//! A setup as its TOML text writes it, key by key, with names where the setup has numbers; and its first fault.
#![tactic(auto)]

pub mod cell;
pub mod draft;
pub mod fault;
pub mod keys;

pub use fault::SetupFault;
