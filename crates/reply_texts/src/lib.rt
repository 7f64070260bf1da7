//! The text of each reply, as compact JSON.
#![tactic(auto)]

mod cause_json;
mod described_json;
mod described_words;
mod filters_json;
mod groups_json;
mod history_json;
mod laws;
mod list_json;
mod pages_json;
mod ranks_json;
mod reply_json;
mod show_json;
mod sprints_json;
mod words;

pub use laws::{keeper_text_is_its_own, memory_text_is_its_own};
pub use reply_json::{KEEPER_TEXT, MEMORY_TEXT, reply_bytes, reply_text};
