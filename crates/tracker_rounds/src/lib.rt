//! Rounds of a server: workers on threads of their own serve connections over HTTP, one after another, and have their calls made
//! one at a time, while one more worker does what becomes due.
#![tactic(auto)]

mod ask;
mod link_desk;
mod round;
mod seated;
mod served;
mod served_links;
mod sits;
mod watched;
mod workers;

pub use ask::{Ask, Entered, Told, UserCall};
pub use link_desk::MOST_LINKS;
pub use round::{Receipts, RoundCause, RoundEnd, serve_round};
pub use seated::{LastCall, Seated};
pub use served::Served;
pub use sits::Sits;
pub use watched::Watched;
