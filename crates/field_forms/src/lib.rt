//! What values and rules look like as texts: the forms of names, of values and of rules, and what fits a field.
#![tactic(auto)]

pub mod built_in;
pub mod cut;
pub mod fit;
pub mod form;
pub mod known;
pub mod laws;
pub mod name_form;
pub mod number_text;
pub mod rule_text;
pub mod text_list;
pub mod value_text;
