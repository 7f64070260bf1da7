ghost use Rattle.std.specs.Prelude.{◌≡◌, Some, IfOk, IfErr};
ghost use Rattle.issue_csv.specs.Reading.{batch_in};
ghost use Rattle.issue_csv.specs.Reader.{HandsOut, TellsFault};

use crate::csv_records::Records;
use crate::next_call::{NextCall, ReaderPhase, phase_after, take_call};
use std::alloc::Global;
use std::marker::Model;
use tracker_calls::Call;

/// Why no call can be handed out.
#[derive(Clone, Copy, Debug, PartialEq, Eq)]
pub enum ImportFault {
    /// The record of that number, the header being 0, isn't as it should be.
    BadRecord(u64),
    Memory,
}

/// Hands out the calls that the records of a CSV ask for, one after the other. Contracts see it as the calls to come and the
/// number of the bad record behind them, if there is one; `None` once memory lacked.
pub struct RecordReader<'a> {
    alloc: Global,
    records: Records<'a>,
    phase: ReaderPhase,
}

// Written by hand, so that whoever lets one go makes one call, and its proof takes one step there.
impl<'a> Drop for RecordReader<'a> {
    fn drop(self) {
        let RecordReader {
            alloc: _,
            records: _,
            phase: _,
        } = self;
    }
}

impl<'a> Model for RecordReader<'a> {
    ghost use Rattle.std.specs.Prelude.{Option};
    ghost use Rattle.issue_csv.specs.Reading.{Batch};
    ghost use Rattle.issue_csv.specs.Reader.{IsInPhase, to_come};

    ghost Value = { Option Batch };

    ghost view = { λ r. to_come r.phase r.records };

    ghost invariant = { λ r. IsInPhase r.phase r.records };
}

impl<'a> RecordReader<'a> {
    /// All calls of an input are to come.
    pub fn new(alloc: Global, bytes: &'a [u8]) -> Self
        ensures { result ≡ Some (batch_in bytes.now) }
    {
        RecordReader {
            alloc,
            records: Records::of(alloc, bytes),
            phase: ReaderPhase::Header,
        }
    }

    /// Hands out the next call; `None` where no record is left. The end, a bad record and want of memory are told again
    /// at each further call.
    pub fn next_call(&mut self) -> Result<Option<Call>, ImportFault>
        ensures ok { IfOk result (λ call. HandsOut self.old call self.new) }
        ensures err { IfErr result (λ fault. TellsFault self.old fault self.new) }
    {
        let next = take_call(self.alloc, self.phase, &mut self.records);
        self.phase = phase_after(&next);
        match next {
            NextCall::Gives(call) => Ok(Some(call)),
            NextCall::Ends => Ok(None),
            NextCall::Bad(number) => Err(ImportFault::BadRecord(number as u64)),
            NextCall::Fails => Err(ImportFault::Memory),
        }
    }
}
