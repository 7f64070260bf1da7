//! A connection in which nothing outside failed.
ghost use Rattle.whole_laws.specs.Connections.{EndsByBytes, IsServed, NeitherFailed};

use request_lines::{Clock, Sink, Source};
use std::alloc::Global;
use tracker_server::{ConnEnd, Teller, serve_connection};

/// Serves one connection. Where neither its source nor its sink failed, each request has its whole response, and the connection ends by
/// the bytes that came; or memory lacked.
pub fn serve_one<S: Source, T: Sink, C: Clock, W: Teller>(
    alloc: Global,
    source: &mut S,
    sink: &mut T,
    clock: &mut C,
    teller: &mut W,
) -> ConnEnd
    ensures { EndsByBytes
        (NeitherFailed (S.faults source.old) (S.faults source.new) (T.faults sink.old)
        (T.faults sink.new))
        result
        (IsServed W.events W.tells W.steps (W.worker teller.old) (S.left source.old)
        (C.ahead clock.old) (C.ahead clock.new) teller.old teller.new result)
        (T.taken sink.old) (T.taken sink.new) }
{
    serve_connection(alloc, source, sink, clock, teller)
}
