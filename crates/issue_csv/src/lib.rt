//! Issues as CSV: the calls that the records of an import ask for, and the records that an export writes.
#![tactic(auto)]

mod columns;
mod csv_records;
mod issue_record;
pub mod laws;
mod next_call;
mod record_call;
mod record_reader;
mod record_text;
mod told;

pub use issue_record::{write_header, write_issue};
pub use record_reader::{ImportFault, RecordReader};
