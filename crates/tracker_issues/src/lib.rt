//! The issues that the desk keeps, found by place and by key, with running totals, how many each project has, and the project of each.
#![tactic(auto)]

mod issues;

pub use issues::Issues;
