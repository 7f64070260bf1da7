// What is asked of what a round serves, and what it answers.

use std::snapshot::Snapshot;
use tracker_calls::{Call, Reply, UserName};
use turn_workers::Wakes;

/// A call, and who asks for it.
#[derive(Drop)]
pub struct UserCall {
    pub user: UserName,
    pub call: Call,
}

/// What is asked of what a round serves.
#[derive(Drop)]
pub enum Ask {
    /// A user's call.
    Call(UserCall),

    /// To do what is due, if anything is.
    Look,
}

/// What it answers: the reply, whether something may be due behind it, and for contracts alone the call that was made.
#[derive(Drop)]
pub struct Told {
    pub made: Snapshot<UserCall>,
    pub reply: Reply,
    pub is_due: bool,
}

impl Wakes for Told {
    fn wakes(&self) -> bool {
        self.is_due
    }
}

/// A call of a round: the number under which it was made, and for contracts alone what was asked and what was answered. Nobody reads
/// these two, and some thousand replies would fill hundreds of megabytes.
#[derive(Drop)]
pub struct Entered {
    pub by: u32,
    pub ask: Snapshot<Ask>,
    pub told: Snapshot<Told>,
}
