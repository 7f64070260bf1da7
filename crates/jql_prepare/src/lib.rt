//! A query made ready for many issues at one moment: what its dates mean at that moment is worked out once, and what costs less
//! is asked first.
#![tactic(auto)]

mod cheapest;
mod date;
mod leaf;
mod query;

pub use query::settle;
