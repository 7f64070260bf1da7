use tracker_calls::{Call, Reply, UserName};

/// A call that was made, with its user, its reply, and the worker that had it made.
#[derive(Drop)]
pub struct Event {
    pub worker: u32,
    pub caller: UserName,
    pub call: Call,
    pub reply: Reply,
}
