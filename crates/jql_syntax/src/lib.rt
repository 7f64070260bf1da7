//! Queries of issues, read from their texts, and the first fault of a text that is none.
#![tactic(auto)]

mod characters;
mod query;
mod read_expr;
mod read_list;
mod read_past;
mod read_query;
mod read_test;
mod read_value;
mod reader;
mod scan;
mod take;
mod token;

pub use query::{
    Aspect, Call, Choice, Comparison, Direction, Expr, Field, Item, Leaf, Members, Predicate,
    Query, SortKey, Test, Value,
};
pub use reader::{JqlFault, MOST_BYTES, one_fault, one_query, parse, query_or_fault};
pub use scan::keyword;
pub use token::{Kind, Mark, Placed, Token};
