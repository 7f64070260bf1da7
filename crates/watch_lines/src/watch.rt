//! What a line asks for.

use field_values::FilterNo;

/// A word of lines about subscriptions.
#[derive(Clone, Copy, PartialEq, Eq)]
pub enum WatchKind {
    Subscribe,
    Feed,
    Ack,
    Unsubscribe,
}

/// What a line asks for.
#[derive(Clone, Copy, PartialEq, Eq)]
pub enum Watch {
    /// A subscription to a filter.
    Subscribe {
        filter: FilterNo,
    },

    /// Moves that wait and have a greater number, so many at most.
    Feed {
        subscription: u32,
        from: u64,
        count: u64,
    },

    /// The moves up to this number are to go.
    Ack {
        subscription: u32,
        upto: u64,
    },

    /// The end of a subscription.
    Unsubscribe {
        subscription: u32,
    },
}
