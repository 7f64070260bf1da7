//! Replies.

use field_values::{Sequence, Text};
use tracker_calls::Reply;

/// A move, with the key of its issue.
#[derive(Drop)]
pub struct ToldMove {
    pub number: u64,
    pub entered: bool,
    pub issue: Text,
}

/// Moves as a reply lists them.
pub type ToldMoves = Sequence<ToldMove>;

/// What is told.
#[derive(Drop)]
pub enum WatchAnswer {
    Subscribe { subscription: u32 },
    /// A part of the moves that wait, and how many these are.
    Feed { moves: ToldMoves, total: u64 },
    /// How many moves wait.
    Ack { kept: u64 },
    Unsubscribe { subscription: u32 },
}

/// Why nothing is done.
#[derive(Clone, Copy, PartialEq, Eq)]
pub enum WatchRefusal {
    /// The user has no subscription of this number.
    NotThere(u32),
    /// There are as many subscriptions as there may be.
    Full,
    /// Too many moves waited. This is the number of the last.
    Lapsed(u64),
    /// The last move has this number.
    Beyond(u64),
}

/// A reply.
#[derive(Drop)]
pub enum WatchReply {
    Ok(WatchAnswer),
    Refused(WatchRefusal),
    /// As to a call: a member, a user or a filter is refused, or there was not enough memory.
    Plain(Reply),
}
