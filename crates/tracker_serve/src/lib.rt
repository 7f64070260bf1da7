//! The tracker over HTTP: rounds of workers over its desk, one round after another.
#![tactic(auto)]

mod desk_round;
mod due;
mod rounds;
mod served_desk;
mod serving;
mod words;

pub use desk_round::serve_desk_round;
pub use served_desk::ServedDesk;
pub use serving::serve;
