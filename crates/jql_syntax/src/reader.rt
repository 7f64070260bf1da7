// Queries from texts.
ghost use Rattle.std.specs.Prelude.{◌≡◌, ◌<◌, ℕ, List, Option, option_map, length, IfOk, IfErr};
ghost use Rattle.jql_syntax.specs.Tree.{Tree};
ghost use Rattle.jql_syntax.specs.View.{view, unboxed};
ghost use Rattle.jql_syntax.specs.Reads.{Reads};
ghost use Rattle.jql_syntax.specs.Reader.{words, Fails};
ghost use Rattle.jql_syntax.specs.Fault.{FirstFault, Faults, FaultOf, IsQuery, Gives, Explains, place_of, number_of_kind};
ghost use Rattle.jql_syntax.specs.Either.{QueryOrFault};
ghost use Rattle.jql_syntax.specs.declared.token.Kind.{Kind as TheKind};
ghost use Rattle.jql_syntax.specs.declared.query.SortKey.{SortKey as TheSortKey};

use crate::query::{Expr, Query, SortKey};
use crate::read_query::read_query;
use crate::scan::tokens;
use crate::take::{Stop, fault};
use crate::token::{Kind, Placed};
use field_values::Sequence;
use std::alloc::Global;

/// The most bytes that a query's text may have.
pub const MOST_BYTES: usize = 4096;

/// Why a text is no query.
#[derive(Clone, Copy, Debug, PartialEq, Eq)]
pub enum JqlFault {
    /// The byte at which the first fault begins, or the text's length, and its kind: 1 a character that stands in no token, or an
    /// escape that is none, 2 a quoted text without its end, 3 something else than what may stand there, 4 the 65th NOT or parenthesis that is
    /// open, 5 more than 4,096 bytes (the place is 4096), 6 a text that is no date, 7 a field's number out of its range.
    Bad { place: usize, kind: u8 },
    /// There was not enough memory.
    Memory,
}

fn number_of(kind: Kind) -> u8
    ensures { result ≡ number_of_kind kind }
{
    match kind {
        Kind::Character => 1,
        Kind::Unclosed => 2,
        Kind::Expected => 3,
        Kind::TooDeep => 4,
        Kind::TooLong => 5,
        Kind::BadDate => 6,
        Kind::BadNumber => 7,
    }
}

// Where the first of the tokens begins, or the end.
fn place_of(end: usize, ts: &[Placed]) -> usize
    ensures { result ≡ place_of end ts.now }
{
    match ts {
        [] => end,
        [first, ..] => first.place,
    }
}

// The condition and the sort keys that the tokens are.
fn read_all(alloc: Global, ts: &[Placed]) -> Result<(Option<Box<Expr>>, Sequence<SortKey>), Stop>
    ensures ok { IfOk result (λ q. Reads (words ts.now) (option_map view (unboxed q.0)) q.1) }
    ensures err { IfErr result (Fails ts.now) }
{
    let (condition, keys, rest) = read_query(alloc, ts)?;
    if rest.is_empty() {
        Ok((condition, keys))
    } else {
        Err(fault(rest))
    }
}

// The fault of a stop.
fn fault_of(stop: Stop, end: usize, ts: &[Placed]) -> JqlFault
    requires { Fails ts.now stop }
    ensures { FaultOf ts.now end result }
{
    match stop {
        Stop::Memory => JqlFault::Memory,
        Stop::At(kind, left) => JqlFault::Bad {
            place: place_of(end, &ts[ts.len() - left..]),
            kind: number_of(kind),
        },
    }
}

/// The query that a text is, or the text's first fault. The empty text is a query too.
pub fn parse(alloc: Global, text: &str) -> Result<Query, JqlFault>
    // What is read is the query.
    ensures found { IfOk result (λ q. IsQuery text.now (option_map view q.0) q.1) }
    // A query is read, unless memory runs out.
    ensures only { (q : Option Tree) (keys : List TheSortKey) → IsQuery text.now q keys
        → Gives result q keys }
    // A fault is the first one.
    ensures fault { IfErr result (Explains text.now) }
    // The first fault is answered, unless memory runs out.
    ensures only_fault { (place : ℕ) (kind : TheKind) → FirstFault text.now place kind
        → Faults result place kind }
{
    if text.len() > MOST_BYTES {
        return Err(JqlFault::Bad {
            place: MOST_BYTES,
            kind: number_of(Kind::TooLong),
        });
    }
    let Ok(tokens) = tokens(alloc, text) else {
        return Err(JqlFault::Memory);
    };
    match read_all(alloc, tokens.as_slice()) {
        Ok((condition, keys)) => Ok(Query::new(condition, keys)),
        Err(stop) => Err(fault_of(stop, text.len(), tokens.as_slice())),
    }
}

/// A text is a query, or has a first fault.
pub fn query_or_fault()
    ensures { (text : List ℕ) → QueryOrFault text }
{}

/// No text is two queries.
pub fn one_query()
    ensures { (text : List ℕ) (q r : Option Tree) (keys other : List TheSortKey)
        → IsQuery text q keys → IsQuery text r other → (q ≡ r) × (keys ≡ other) }
{}

/// No text has two first faults.
pub fn one_fault()
    ensures { (text : List ℕ) (p q : ℕ) (k j : TheKind) → FirstFault text p k → FirstFault text q j
        → (p ≡ q) × (k ≡ j) }
{}
