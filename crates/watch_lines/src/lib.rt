//! Lines about subscriptions: what one asks for, or the first fault of its form, and the text of its reply.
#![tactic(auto)]

mod line;
mod members;
mod reply;
mod text;
mod watch;

pub use line::read_watch;
pub use reply::{ToldMove, ToldMoves, WatchAnswer, WatchRefusal, WatchReply};
pub use text::watch_bytes;
pub use watch::{Watch, WatchKind};
