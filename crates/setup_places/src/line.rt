// The line of a text in which a place is.
ghost use Rattle.std.specs.Prelude.{◌≡◌, ◌<◌, ◌≤◌, ◌^◌, ◌+◌, length};
ghost use Rattle.setup_places.specs.Places.{feeds, line_at};

/// The number, from 1, of the line that goes on behind so many bytes of a text.
#[tactic(auto, using(crate::proofs::Feeds::feeds_take))]
pub(crate) fn line_at(text: &[u8], at: usize) -> usize
    requires short { length text.now < 2 ^ 32 }
    requires within { at ≤ length text.now }
    ensures is { result ≡ line_at text.now at }
    ensures within { result ≤ feeds text.now + 1 }
{
    feeds(&text[..at]) + 1
}

// The line feeds among some bytes.
fn feeds(bytes: &[u8]) -> usize
    ensures count { result ≡ feeds bytes.now }
    ensures within { result ≤ length bytes.now }
{
    let mut count = 0_usize;
    for byte in bytes {
        if *byte == b'\n' {
            count += 1;
        }
    }
    count
}
