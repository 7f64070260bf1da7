//! What is proved of commands, connections and servers in which nothing outside failed. No program calls anything of this.
#![tactic(auto)]

mod command;
mod connection;
mod never_fails;
mod rounds;
mod server;

pub use command::run_command;
pub use connection::serve_one;
pub use never_fails::{run_over_never_fails, run_unfailing};
pub use rounds::serve_all_by_rounds;
pub use server::serve_all;
