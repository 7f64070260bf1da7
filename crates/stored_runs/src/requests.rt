// Request lines to a desk.
use call_lines::read_line;
use field_values::Steps;
use reply_texts::reply_text;
use std::alloc::Global;
use std::str;
use std::sync::ledger::Ledger;
use tracker_calls::{Call, Reply, UserName};
use tracker_core::Desk;
use tracker_keeper::NeverFails;

/// The desk's reply to a request line.
pub fn reply_to_line<L: Ledger>(
    alloc: Global,
    desk: &mut Desk<NeverFails>,
    line: &[u8],
    steps: &mut Steps<L>,
) -> Option<String> {
    match read_line(alloc, line) {
        Ok((user, call)) => told(alloc, &desk.call(&user, &call, steps)),
        Err(refusal) => told(alloc, &Reply::Refused(refusal)),
    }
}

fn told(alloc: Global, reply: &Reply) -> Option<String> {
    let text = reply_text(alloc, reply).ok()?;
    String::from_str(alloc, text.as_str()).ok()
}

/// A request line that was read.
#[derive(Drop)]
struct Request {
    user: UserName,
    call: Call,
}

/// The text of the last reply to a line's requests, made so many times.
pub fn last_reply<L: Ledger>(
    alloc: Global,
    desk: &mut Desk<NeverFails>,
    line: &[u8],
    steps: &mut Steps<L>,
) -> Option<String> {
    let (count, texts) = str::from_utf8(line).ok()?.split_once('\t')?;
    let count = count.parse::<u32>().ok()?;
    let requests = requests_of(alloc, texts)?;
    let mut last = None;
    for _ in 0..count {
        for request in &requests {
            last = Some(desk.call(&request.user, &request.call, steps));
        }
    }
    told(alloc, &last?)
}

// Each request is read once, however often it is made.
fn requests_of(alloc: Global, texts: &str) -> Option<Vec<Request>> {
    let mut requests = Vec::new(alloc);
    for text in texts.split('\t') {
        requests.push(request_of(alloc, text)?).ok()?;
    }
    Some(requests)
}

fn request_of(alloc: Global, text: &str) -> Option<Request> {
    let (user, call) = read_line(alloc, text.as_bytes()).ok()?;
    Some(Request { user, call })
}
