//! The one spelling of a query, and that it reads again; the reply to a line that may be a query.
#![tactic(auto)]

mod check;
mod line;
mod whole;
mod write_expr;
mod write_test;
mod write_value;

pub use check::{check_line, one_reply, some_reply};
pub use whole::{nesting_is_limited, print, printed_reads};
