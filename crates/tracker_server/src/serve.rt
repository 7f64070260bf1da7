// One connection.
ghost use Rattle.std.specs.Prelude.{◌≡◌, ◌≤◌, IfOk};
ghost use Rattle.std.specs.Io.KnownBytes.{prepend_known};
ghost use Rattle.request_lines.specs.Causes.{Rose};
ghost use Rattle.tracker_http.specs.Response.{IsStatus};
ghost use Rattle.tracker_http.specs.Routes.{path_of, path_verb};
ghost use Rattle.tracker_server.specs.Connections.{Serves, closes, refusal_response};
ghost use Rattle.tracker_server.specs.Exchanges.{IsExchanged};
ghost use Rattle.tracker_server.specs.Steps.{ServesNext};
ghost use Rattle.tracker_server.specs.Sending.{IsSent};

use crate::answer::answer;
use crate::send::{Sent, send};
use crate::teller::Teller;
use field_values::Memory;
use request_lines::{Clock, Sink, Source};
use std::alloc::Global;
use tracker_http::{HeadFault, Next, Request, read_request, refused_body, response_bytes};

/// The responses that a connection has at most.
const MOST_RESPONSES: u32 = 16;

/// How a connection ends.
#[derive(Clone, Copy, PartialEq, Eq)]
pub enum ConnEnd {
    /// The input ended between requests, or a response closed the connection.
    Closed,

    /// The input ended inside a request.
    Cut,

    /// A request was refused with this status.
    Refused(u16),

    /// The source failed.
    ReadFault,

    /// The sink failed.
    WriteFault,

    /// There was not enough memory.
    Memory,
}

/// How far serving a request brings a connection.
#[derive(Clone, Copy, PartialEq, Eq)]
pub enum Step {
    /// The response is written, and the next request may come.
    Goes,

    /// The connection ends.
    Ends(ConnEnd),
}

/// Serves one connection: reads its requests, has their calls made, each behind a tick to the clock's next reading, and writes the
/// responses, until one of them closes the connection.
pub fn serve_connection<S: Source, T: Sink, C: Clock, W: Teller>(
    alloc: Global,
    source: &mut S,
    sink: &mut T,
    clock: &mut C,
    teller: &mut W,
) -> ConnEnd
    // The worker is the same, and the requests that are read have their calls made and get their
    // responses, at most sixteen.
    ensures worker { W.worker teller.new ≡ W.worker teller.old }
    ensures serves { Serves W.events W.tells W.steps (W.worker teller.old) 16 (S.left source.old)
        (T.taken sink.old) (T.taken sink.new) (C.ahead clock.old) (C.ahead clock.new)
        teller.old teller.new result }
    // What is blamed has failed, and the counts of source and sink never fall.
    ensures read_cause { result ≡ ConnEnd.ReadFault
        → Rose (S.faults source.old) (S.faults source.new) }
    ensures write_cause { result ≡ ConnEnd.WriteFault
        → Rose (T.faults sink.old) (T.faults sink.new) }
    ensures read_later { S.faults source.old ≤ S.faults source.new }
    ensures write_later { T.faults sink.old ≤ T.faults sink.new }
{
    let mut held = Vec::new(alloc);
    serve_rest(
        alloc,
        source,
        &mut held,
        sink,
        clock,
        teller,
        MOST_RESPONSES,
    )
}

// Serves what is left of a connection, on which so many responses may still be made.
fn serve_rest<S: Source, T: Sink, C: Clock, W: Teller>(
    alloc: Global,
    source: &mut S,
    held: &mut Vec<u8>,
    sink: &mut T,
    clock: &mut C,
    teller: &mut W,
    left: u32,
) -> ConnEnd
    requires { 1 ≤ left }
    // The worker is the same, and the requests that are read have their calls made and get their
    // responses, at most as many as are left.
    ensures worker { W.worker teller.new ≡ W.worker teller.old }
    ensures serves { Serves W.events W.tells W.steps (W.worker teller.old) left
        (prepend_known held.old.items (S.left source.old)) (T.taken sink.old) (T.taken sink.new)
        (C.ahead clock.old) (C.ahead clock.new) teller.old teller.new result }
    // What is blamed has failed, and the counts of source and sink never fall.
    ensures read_cause { result ≡ ConnEnd.ReadFault
        → Rose (S.faults source.old) (S.faults source.new) }
    ensures write_cause { result ≡ ConnEnd.WriteFault
        → Rose (T.faults sink.old) (T.faults sink.new) }
    ensures read_later { S.faults source.old ≤ S.faults source.new }
    ensures write_later { T.faults sink.old ≤ T.faults sink.new }
{
    match serve_next(alloc, source, held, sink, clock, teller, left) {
        Step::Ends(end) => end,
        Step::Goes => serve_rest(alloc, source, held, sink, clock, teller, left - 1),
    }
}

// Serves the next request, where there is one.
fn serve_next<S: Source, T: Sink, C: Clock, W: Teller>(
    alloc: Global,
    source: &mut S,
    held: &mut Vec<u8>,
    sink: &mut T,
    clock: &mut C,
    teller: &mut W,
    left: u32,
) -> Step
    requires { 1 ≤ left }
    // The worker is the same, and a request that is read has its call made and gets its response.
    // It goes on only where one more response may follow.
    ensures worker { W.worker teller.new ≡ W.worker teller.old }
    ensures serves { ServesNext W.events W.tells W.steps (W.worker teller.old) left
        (prepend_known held.old.items (S.left source.old))
        (prepend_known held.new.items (S.left source.new)) (T.taken sink.old) (T.taken sink.new)
        (C.ahead clock.old) (C.ahead clock.new) teller.old teller.new result }
    ensures goes { result ≡ Step.Goes → 2 ≤ left }
    // What is blamed has failed, and the counts of source and sink never fall.
    ensures read_cause { result ≡ Step.Ends ConnEnd.ReadFault
        → Rose (S.faults source.old) (S.faults source.new) }
    ensures write_cause { result ≡ Step.Ends ConnEnd.WriteFault
        → Rose (T.faults sink.old) (T.faults sink.new) }
    ensures read_later { S.faults source.old ≤ S.faults source.new }
    ensures write_later { T.faults sink.old ≤ T.faults sink.new }
{
    match read_request(alloc, source, held) {
        Next::Request(request) => {
            let close = closes(&request, left);
            match exchange(alloc, sink, clock, teller, request, close) {
                Sent::Whole => {
                    if close {
                        Step::Ends(ConnEnd::Closed)
                    } else {
                        Step::Goes
                    }
                }
                Sent::Failed => Step::Ends(ConnEnd::WriteFault),
                Sent::Memory => Step::Ends(ConnEnd::Memory),
            }
        }
        Next::Refused {
            status,
            allow,
            head,
        } => match refuse(alloc, sink, HeadFault { status, allow }, head) {
            Sent::Whole => Step::Ends(ConnEnd::Refused(status)),
            Sent::Failed => Step::Ends(ConnEnd::WriteFault),
            Sent::Memory => Step::Ends(ConnEnd::Memory),
        },
        Next::End => Step::Ends(ConnEnd::Closed),
        Next::Cut => Step::Ends(ConnEnd::Cut),
        Next::ReadFault => Step::Ends(ConnEnd::ReadFault),
        Next::Memory => Step::Ends(ConnEnd::Memory),
    }
}

// The response to the request closes the connection, on which so many responses may still be made.
fn closes(request: &Request, left: u32) -> bool
    ensures { result ≡ closes left request.now }
{
    request.close || left == 1
}

// Has a request's call made, and sends the response.
fn exchange<T: Sink, C: Clock, W: Teller>(
    alloc: Global,
    sink: &mut T,
    clock: &mut C,
    teller: &mut W,
    request: Request,
    close: bool,
) -> Sent
    requires { path_verb (path_of request.target) ≡ Some request.verb }
    ensures worker { W.worker teller.new ≡ W.worker teller.old }
    ensures answers { IsExchanged W.events W.tells W.steps (W.worker teller.old)
        (C.ahead clock.old) (C.ahead clock.new) teller.old teller.new request close
        (IsSent (T.taken sink.old) (T.taken sink.new) result) }
    ensures failed { result ≡ Sent.Failed → Rose (T.faults sink.old) (T.faults sink.new) }
    ensures later { T.faults sink.old ≤ T.faults sink.new }
{
    let response = answer(alloc, clock, teller, &request, close);
    send(sink, response)
}

// Sends the response to a request that is refused.
fn refuse<T: Sink>(alloc: Global, sink: &mut T, fault: HeadFault, head: bool) -> Sent
    requires { IsStatus fault.status }
    ensures bytes { IsSent (T.taken sink.old) (T.taken sink.new) result
        (refusal_response (record { fault = fault; is_head = head })) }
    ensures failed { result ≡ Sent.Failed → Rose (T.faults sink.old) (T.faults sink.new) }
    ensures later { T.faults sink.old ≤ T.faults sink.new }
{
    send(sink, refusal_response(alloc, fault, head))
}

fn refusal_response(alloc: Global, fault: HeadFault, head: bool) -> Result<Vec<u8>, Memory>
    requires { IsStatus fault.status }
    ensures { IfOk result (λ bytes. bytes.items
        ≡ refusal_response (record { fault = fault; is_head = head })) }
{
    if head {
        return response_bytes(alloc, fault.status, None, true, fault.allow);
    }
    let body = refused_body(alloc, fault.status)?;
    response_bytes(alloc, fault.status, Some(&body), true, fault.allow)
}
