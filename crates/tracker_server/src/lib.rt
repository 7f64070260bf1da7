//! One connection over HTTP: its requests are read, each has its call made by a teller, and the responses are written.
#![tactic(auto)]

mod answer;
mod direct;
mod event;
pub mod laws;
mod links;
mod links_served;
mod maker;
mod send;
mod serve;
mod teller;

pub use direct::Direct;
pub use event::Event;
pub use links::{Links, ListLinks, NextLink};
pub use links_served::{LinksEnd, serve_links};
pub use maker::Maker;
pub use serve::{ConnEnd, serve_connection};
pub use teller::Teller;

#[cfg(test)]
mod tests;
