//! Texts of JSON that are written a token at a time.
#![tactic(auto)]

mod json_text;

pub use json_text::JsonText;
