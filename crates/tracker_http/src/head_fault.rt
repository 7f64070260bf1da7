use crate::verb::Verb;

/// Why a request is refused: the status of the response, and the one method of the path where another one was asked for.
#[derive(Clone, Copy, PartialEq, Eq)]
pub struct HeadFault {
    pub status: u16,
    pub allow: Option<Verb>,
}
