// Lines that may be queries, each with its reply.
ghost use Rattle.std.specs.Prelude.{List, ℕ};
ghost use Rattle.jql_print.specs.Check.{IsReply};

use field_values::Memory;
use jql_print::check_line;
use request_lines::{Looked, Responder};
use std::alloc::{AllocError, Global};

/// Replies to queries. It keeps nothing from one line to the next.
#[derive(Drop)]
pub struct Checks {
    alloc: Global,
}

impl Checks {
    pub fn new(alloc: Global) -> Self {
        Checks { alloc }
    }
}

impl Responder for Checks {
    type Change = ();

    ghost answers = { λ old line text new. IsReply line text };

    ghost asks = { λ line change. ⊥ };

    fn look(&mut self, line: &[u8], answer: &mut Vec<u8>) -> Result<Looked<()>, AllocError> {
        answer.clear();
        match check_line(self.alloc, line, answer) {
            Ok(()) => Ok(Looked::Answered),
            Err(Memory) => Err(AllocError),
        }
    }

    // No line asks for a change.
    fn make(&mut self, _change: (), _answer: &mut Vec<u8>) -> Result<(), AllocError> {
        Ok(())
    }
}
