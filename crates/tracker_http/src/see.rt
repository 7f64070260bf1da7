// Whether a whole head is refused.
ghost use Rattle.std.specs.Prelude.{◌≡◌, ◌≤◌, length};
ghost use Rattle.tracker_http.specs.HeadEnd.{IsWholeHead};
ghost use Rattle.tracker_http.specs.Taken.{SeesHead};

use crate::fields::bytes_of;
use crate::head_fault::HeadFault;
use crate::look::{body_len, fault_of, is_head_method, look};
use httparse::spans::{HeaderSpan, RequestSpans};

/// What is seen of a whole head.
#[derive(Clone, Copy)]
pub enum HeadSeen {
    /// It is refused. `head` says that it can be read and has the method HEAD.
    Refused {
        refusal: HeadFault,
        head: bool,
    },

    /// It isn't, and its body has that length.
    Taken {
        spans: RequestSpans,
        body_len: usize,
    },
}

/// Looks at a whole head.
pub fn see(bytes: &[u8], room: &mut [HeaderSpan]) -> HeadSeen
    requires whole { IsWholeHead bytes.now }
    requires room { 2731 ≤ length room.old }
    ensures { SeesHead bytes.now room.new result }
{
    let Some(spans) = look(bytes, room) else {
        return HeadSeen::Refused {
            refusal: HeadFault {
                status: 400,
                allow: None,
            },
            head: false,
        };
    };
    if let Some(refusal) = fault_of(bytes, room, spans) {
        return HeadSeen::Refused {
            refusal,
            head: is_head_method(bytes_of(bytes, spans.method)),
        };
    }
    let (fields, _) = room.split_at(spans.headers);
    HeadSeen::Taken {
        spans,
        body_len: body_len(bytes, fields),
    }
}
