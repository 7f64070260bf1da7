//! What a run over lines reads and writes: the traits of the outside with their forms in memory, the
//! cutting of an input into lines, and the loop that has each line answered. It knows no tracker, so
//! that its proofs stand while the calls grow.
#![tactic(auto)]

mod clock;
mod limits;
mod memory_sink;
mod memory_source;
mod outside;
mod reader;
mod responder;
mod run;
mod waiting;
mod whole_input;
mod write;

pub use clock::{Clock, ListClock};
pub use limits::{LINE_LIMIT, LINES_LIMIT};
pub use memory_sink::MemorySink;
pub use memory_source::MemorySource;
pub use outside::{Failed, Sink, Source};
pub use responder::{Looked, Responder};
pub use run::{End, answer_lines};
pub use whole_input::{InputFault, read_whole};
pub use write::write_all;
