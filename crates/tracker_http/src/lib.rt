//! HTTP as the tracker speaks it: requests read from a source however its bytes come in, the call that each asks for, and
//! the bytes of responses.
#![tactic(auto)]

mod bytes;
mod calls;
mod fields;
mod finish;
mod got;
mod head_end;
mod head_fault;
mod held;
pub mod laws;
mod look;
mod named;
mod numbers;
mod query;
mod read;
mod request;
mod response;
mod route;
mod see;
mod status;
mod verb;

pub use bytes::Bytes;
pub use calls::call_of;
pub use head_fault::HeadFault;
pub use read::read_request;
pub use request::{Next, Request};
pub use response::{refused_body, response_bytes};
pub use route::Route;
pub use status::status_of;
pub use verb::Verb;

#[cfg(test)]
mod calls_tests;
#[cfg(test)]
mod tests;
