// What the server reads of the fields of a head.
ghost use Rattle.std.specs.Prelude.{◌≡◌, length, All, option_map};
ghost use Rattle.std.specs.List.{list_all};
ghost use Rattle.std.specs.Str.{str_eq_ignore_ascii_case};
ghost use Rattle.httparse.specs.Grammar.{is_ows, skip_ows};
ghost use Rattle.httparse.specs.Spans.{IsWithin, IsHeaderWithin, header_bytes, span_bytes};
ghost use Rattle.tracker_http.specs.Fields.{is_named, count_named, value_named, is_close, has_close, says_close, closes, body_len, length_of};
ghost use Rattle.tracker_http.specs.CommaLists.{CutsPiece};
ghost use Rattle.tracker_http.specs.Spans.{fields_at};

use crate::route::before;
use httparse::spans::{HeaderSpan, Span};

/// Whether both have the same bytes, whatever the case of ASCII letters.
fn is_same_word(one: &[u8], other: &[u8]) -> bool
    ensures { result ≡ str_eq_ignore_ascii_case one.now other.now }
{
    one.eq_ignore_ascii_case(other)
}

/// The bytes that a span covers.
pub fn bytes_of<'b>(bytes: &'b [u8], span: Span) -> &'b [u8]
    requires { IsWithin (length bytes.now) span }
    ensures { result.now ≡ span_bytes bytes.now span }
{
    span.of(bytes)
}

// Whether a field has that name.
#[tactic(auto, unfolding(crate::specs::Fields::is_named))]
fn is_named(bytes: &[u8], span: HeaderSpan, name: &[u8]) -> bool
    requires { IsHeaderWithin (length bytes.now) span }
    ensures { result ≡ is_named name.now (header_bytes bytes.now span) }
{
    is_same_word(bytes_of(bytes, span.name), name)
}

/// How many fields have that name.
pub fn count_named(bytes: &[u8], spans: &[HeaderSpan], name: &[u8]) -> usize
    requires { All (IsHeaderWithin (length bytes.now)) spans.now }
    ensures { result ≡ count_named name.now (fields_at bytes.now spans.now) }
{
    let mut count = 0;
    for &span in spans {
        if is_named(bytes, span, name) {
            count += 1;
        }
    }
    count
}

/// The value of the first field of that name.
pub fn value_named<'b>(bytes: &'b [u8], spans: &[HeaderSpan], name: &[u8]) -> Option<&'b [u8]>
    requires { All (IsHeaderWithin (length bytes.now)) spans.now }
    ensures { option_map (λ v. v.now) result
        ≡ value_named name.now (fields_at bytes.now spans.now) }
{
    for &span in spans {
        if is_named(bytes, span, name) {
            return Some(bytes_of(bytes, span.value));
        }
    }
    None
}

// The bytes from the first that is no white space.
fn skip_ows(bytes: &[u8]) -> &[u8]
    ensures { result.now ≡ skip_ows bytes.now }
{
    for (at, byte) in bytes.iter().enumerate() {
        if !is_ows(*byte) {
            return &bytes[at..];
        }
    }
    &bytes[bytes.len()..]
}

// A space or a tab.
fn is_ows(byte: u8) -> bool
    ensures { result ≡ is_ows byte }
{
    byte == b' ' || byte == b'\t'
}

// Whether a token is close.
#[tactic(auto, unfolding(crate::specs::Fields::is_close))]
fn is_close(piece: &[u8]) -> bool
    ensures { result ≡ is_close piece.now }
{
    let rest = skip_ows(piece);
    if rest.len() < 5 {
        return false;
    }
    let (word, after) = rest.split_at(5);
    is_same_word(word, b"close") && are_ows(after)
}

// Whether all the bytes are white space.
fn are_ows(bytes: &[u8]) -> bool
    ensures { result ≡ list_all is_ows bytes.now }
{
    bytes.iter().all(|byte| is_ows(*byte))
}

// The first piece of a comma list, and what follows its comma, where there is one.
#[tactic(auto, using(crate::proofs::PiecesLemmas::first_piece, crate::proofs::PiecesLemmas::whole_piece))]
fn cut(list: &[u8]) -> Option<(&[u8], &[u8])>
    ensures { CutsPiece list.now (option_map (λ r. (r.0.now, r.1.now)) result) }
{
    let count = before(list, b',');
    if count == list.len() {
        return None;
    }
    let (piece, _) = list.split_at(count);
    let (_, later) = list.split_at(count + 1);
    Some((piece, later))
}

// Whether one token of a comma list is close.
#[tactic(auto, unfolding(crate::specs::Fields::has_close))]
fn has_close(value: &[u8]) -> bool
    ensures { result ≡ has_close value.now }
{
    let mut rest = value;
    'pieces: while let Some((piece, later)) = cut(rest) {
        if is_close(piece) {
            return true;
        }
        rest = later;
    }
    is_close(rest)
}

// Whether a field says that the connection closes.
fn says_close(bytes: &[u8], span: HeaderSpan) -> bool
    requires { IsHeaderWithin (length bytes.now) span }
    ensures { result ≡ says_close (header_bytes bytes.now span) }
{
    is_named(bytes, span, b"Connection") && has_close(bytes_of(bytes, span.value))
}

/// Whether the connection closes after the request.
pub fn closes(bytes: &[u8], minor: u8, spans: &[HeaderSpan]) -> bool
    requires { All (IsHeaderWithin (length bytes.now)) spans.now }
    ensures { result ≡ closes minor (fields_at bytes.now spans.now) }
{
    if minor == 0 {
        return true;
    }
    for &span in spans {
        if says_close(bytes, span) {
            return true;
        }
    }
    false
}
