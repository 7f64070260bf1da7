//! Queries read from texts and bound to a setup: names in them become numbers, NOT is pushed to the tests of fields, and the
//! first fault is told.
#![tactic(auto)]

mod binding;
mod calls;
mod column;
mod conditions;
mod digits;
mod fault;
mod field_name;
mod forms;
mod items;
pub mod laws;
mod leaves;
mod past;
mod predicates;
mod present;
mod scope;
mod sorting;
mod values;
mod words;

pub use binding::bind;
pub use fault::BindFault;
pub use jql_bound::{
    Bound, Cond, Context, Direction, Endpoint, Inequality, Leaf, Operand, Operator, OrderBy,
    OrderKey, PastLeaf, PastPredicate, PastTest, Phase, SortField, Subject, Word,
};
pub use jql_print::print;
pub use jql_syntax::{JqlFault, MOST_BYTES, Query, parse};
