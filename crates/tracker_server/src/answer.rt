// What is answered to a request.
ghost use Rattle.std.specs.Prelude.{◌≡◌, Some, IfOk};
ghost use Rattle.tracker_http.specs.Routes.{path_of, path_verb};
ghost use Rattle.tracker_server.specs.Exchanges.{is_earlier, lets_through, response_to, IsExchanged, HasMade};

use crate::teller::Teller;
use field_values::{Memory, Moment};
use reply_texts::reply_text;
use request_lines::Clock;
use std::alloc::Global;
use tracker_calls::{Call, Cause, Refusal, Reply, UserName};
use tracker_http::{Request, call_of, response_bytes, status_of};

/// Has a request's call made, and the response to it.
pub fn answer<C: Clock, W: Teller>(
    alloc: Global,
    clock: &mut C,
    teller: &mut W,
    request: &Request,
    close: bool,
) -> Result<Vec<u8>, Memory>
    requires { path_verb (path_of request.now.target) ≡ Some request.now.verb }
    ensures worker { W.worker teller.new ≡ W.worker teller.old }
    ensures answers { IsExchanged W.events W.tells W.steps (W.worker teller.old)
        (C.ahead clock.old) (C.ahead clock.new) teller.old teller.new request.now close
        (λ text. IfOk result (λ bytes. bytes.items ≡ text)) }
{
    match call_of(alloc, request) {
        Err(refusal) => response_to(alloc, &Reply::Refused(refusal), close),
        Ok((user, call)) => {
            make(clock, teller, &user, &call);
            response_to(alloc, teller.reply(), close)
        }
    }
}

// Has a call made by that user, behind a tick to the clock's next reading.
fn make<C: Clock, W: Teller>(clock: &mut C, teller: &mut W, user: &UserName, call: &Call)
    ensures worker { W.worker teller.new ≡ W.worker teller.old }
    ensures made { HasMade W.events W.tells W.steps (W.worker teller.old)
        (C.ahead clock.old) (C.ahead clock.new) teller.old teller.new
        user.now call.now (W.answer teller.new) }
{
    let Some(to) = Moment::new(clock.now()) else {
        unreachable!()
    };
    teller.tell(user, &Call::Tick { to });
    if lets_through(teller.reply()) {
        teller.tell(user, call);
    }
}

// After this reply to the tick, the call is made.
fn lets_through(reply: &Reply) -> bool
    ensures { result ≡ lets_through reply.now }
{
    match reply {
        Reply::Ok(_) => true,
        Reply::Refused(refusal) => is_earlier(refusal),
    }
}

fn is_earlier(refusal: &Refusal) -> bool
    ensures { result ≡ is_earlier refusal.now }
{
    matches!(refusal, Refusal::Cause(Cause::Earlier { .. }))
}

// The response that tells a reply.
fn response_to(alloc: Global, reply: &Reply, close: bool) -> Result<Vec<u8>, Memory>
    ensures { IfOk result (λ bytes. bytes.items ≡ response_to reply.now close) }
{
    let text = reply_text(alloc, reply)?;
    let body = text.as_str().as_bytes();
    response_bytes(alloc, status_of(reply), Some(body), close, None)
}
