use crate::bytes::Bytes;
use crate::verb::Verb;

/// A request for a path that is served, by the method of that path.
#[derive(Drop)]
pub struct Request {
    pub verb: Verb,

    /// The path and the query text, as they stood.
    pub target: Bytes,

    /// The value of the one field `X-User`.
    pub user: Option<Bytes>,
    pub body: Bytes,

    /// The connection closes after the response, for the sake of this head.
    pub close: bool,
}

/// What stood next in a source.
#[derive(Drop)]
pub enum Next {
    /// A whole request.
    Request(Request),

    /// The end of the input, between requests.
    End,

    /// The end of the input, inside a request.
    Cut,

    /// A request that is refused, with the status of the response. `allow` is the path's method, where it has
    /// another one, and `head` says that the request's own method is HEAD.
    Refused {
        status: u16,
        allow: Option<Verb>,
        head: bool,
    },

    /// The source failed.
    ReadFault,

    /// There was not enough memory.
    Memory,
}
