//! Lines of JSON and bodies of requests, read: who asks for which call, or the first fault of its form.
#![tactic(auto)]

mod asked;
mod asked_groups;
mod asked_pages;
mod asked_sprints;
mod body;
mod given;
mod kind;
mod line;
mod members;
mod named;
mod plain_calls;
mod plain_line;
mod plain_members;
mod taken;

pub use body::read_body;
pub use json::Scratch;
pub use kind::CallKind;
pub use line::{AskedLine, read_line, read_line_in};
pub use members::{is_among, misses};
