//! Import and export of issues as CSV over a desk, and a load that is made of a number.
#![tactic(auto)]

mod export;
mod halt;
mod import;
mod load;
mod load_calls;
mod one_call;
mod reply_line;

pub use export::{ExportEnd, export_rows};
pub use import::{ImportEnd, import_rows};
pub use load::{LoadEnd, LoadSummary, make_load};
pub use reply_line::put_reply_line;
