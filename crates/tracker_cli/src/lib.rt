//! The top calls of the tracker, and the adapters over the machine's own streams.
#![tactic(auto)]

mod adapters;
mod check;
mod command;
mod exec;
mod export;
mod generate;
mod held;
mod import;
mod init;
mod lines;
mod network;
mod number;
mod port_streams;
mod serving;
mod store;
mod texts;
mod words;

pub use adapters::{Reading, Writing};
pub use check::Checks;
pub use command::run;
pub use exec::RequestLines;
pub use network::{MachineClock, PortLinks};
pub use port_streams::{PortSink, PortSource};
pub use serving::serve;
pub use store::Store;
