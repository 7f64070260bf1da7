use fields::{Setup, UserNo};
use std::alloc::Global;

/// What a query is bound to: the setup, and the user who asks.
#[derive(Clone, Copy)]
pub(crate) struct Binder<'a> {
    pub(crate) alloc: Global,
    pub(crate) setup: &'a Setup,
    pub(crate) caller: UserNo,
}
