//! Calendars with a table of offsets from UTC, and the date terms of a query language.
#![tactic(auto)]

mod amount;
mod calendar;
mod call;
mod change;
mod civil;
pub mod laws;
mod reading;
mod second;
mod term;

pub use calendar::{Calendar, OffsetStep, StepFault};
pub use call::TermCall;
pub use term::{Boundary, Edge, LocalSecond, Months, Period, Shift, Term};
