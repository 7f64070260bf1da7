// The members that a query text gives.
ghost use Rattle.std.specs.Prelude.{◌≡◌, map, option_map, slice_get, length, Ok, Err, IfOk, IfErr};
ghost use Rattle.tracker_http.specs.Query.{text_of, pair_of, pairs_of, values_of, once, text_in, number_or, from_in, count_in, lesser, first_unknown, part_in};

use crate::numbers::number_within;
use call_lines::is_among;
use field_values::{Memory, Sequence, Text};
use form_urlencoded::{decode, raw_pairs};
use std::alloc::Global;
use tracker_calls::{MOST_FROM, Part};

/// A name and its value.
#[derive(Drop)]
pub struct Pair {
    pub name: Text,
    pub value: Text,
}

/// The pairs of a query text, in order.
pub type Pairs = Sequence<Pair>;

// The text that a name or a value stands for.
fn text_of(alloc: Global, bytes: &[u8]) -> Result<Text, Memory>
    ensures { IfOk result (λ text. text ≡ text_of bytes.now) }
{
    let string = decode(alloc, bytes)?.into_owned(alloc)?;
    Ok(Text::of(string))
}

fn pair_of(alloc: Global, name: &[u8], value: &[u8]) -> Result<Pair, Memory>
    ensures { IfOk result (λ pair. pair ≡ pair_of (name.now, value.now)) }
{
    let name = text_of(alloc, name)?;
    let value = text_of(alloc, value)?;
    Ok(Pair { name, value })
}

/// The pairs of a query text.
pub fn pairs_of(alloc: Global, query: &[u8]) -> Result<Pairs, Memory>
    ensures { IfOk result (λ pairs. pairs ≡ pairs_of query.now) }
{
    let mut pairs = Pairs::new(alloc);
    'pairs: for (name, value) in raw_pairs(query) {
        pairs.push(pair_of(alloc, name, value)?)?;
    }
    Ok(pairs)
}

// How many values stand with a name.
fn count_values(pairs: &[Pair], name: &str) -> usize
    ensures { result ≡ length (values_of name.now pairs.now) }
{
    let mut count = 0;
    for pair in pairs {
        if pair.name.as_str() == name {
            count += 1;
        }
    }
    count
}

// The first of them.
fn first_value<'p>(pairs: &'p [Pair], name: &str) -> Option<&'p str>
    ensures { option_map (λ value. value.now) result
        ≡ slice_get (values_of name.now pairs.now) 0 }
{
    for pair in pairs {
        if pair.name.as_str() == name {
            return Some(pair.value.as_str());
        }
    }
    None
}

// The value of a member that may be absent, or `None` where it stands more than once.
#[tactic(auto, using(crate::proofs::Given::once_at_most, crate::proofs::Given::more_than_once))]
fn once<'p>(pairs: &'p [Pair], name: &str) -> Option<Option<&'p str>>
    ensures { option_map (option_map (λ value. value.now)) result
        ≡ once (values_of name.now pairs.now) }
{
    if count_values(pairs, name) > 1 {
        return None;
    }
    Some(first_value(pairs, name))
}

/// The text of a member, which stands once.
pub fn text_in<'p>(pairs: &'p [Pair], name: &str) -> Option<&'p str>
    ensures { option_map (λ value. value.now) result ≡ text_in name.now pairs.now }
{
    match once(pairs, name) {
        Some(value) => value,
        None => None,
    }
}

// A number between bounds of a member that may be absent, and then is that number.
fn number_or(value: Option<&str>, absent: u32, least: u32, most: u32) -> Option<u32>
    ensures { result ≡ number_or absent least most (option_map (λ v. v.now) value.entry) }
{
    match value {
        None => Some(absent),
        Some(value) => number_within(value.as_bytes(), least, most),
    }
}

// Where a part begins, which is at 0 where the member `from` is absent; `None` where it isn't the digits of such a number.
fn from_in(pairs: &[Pair]) -> Option<u32>
    ensures { result ≡ from_in pairs.now }
{
    number_or(once(pairs, "from")?, 0, 0, MOST_FROM)
}

// How many a part has at most, which is `most` where the member `count` is absent; `None` where it isn't the digits of such a
// number.
fn count_in(pairs: &[Pair], most: u32) -> Option<u32>
    ensures { result ≡ count_in most pairs.now }
{
    number_or(once(pairs, "count")?, most, 1, most)
}

// The first in byte order.
fn lesser<'p>(least: Option<&'p str>, name: &'p str) -> &'p str
    ensures { result.now ≡ lesser (option_map (λ n. n.now) least.entry) name.now }
{
    match least {
        Some(least) => { if name.cmp(least).is_lt() { name } else { least } }
        None => name,
    }
}

/// The first name in byte order that is none of these.
pub fn first_unknown<'p>(pairs: &'p [Pair], known: &[&str]) -> Option<&'p str>
    ensures { option_map (λ name. name.now) result
        ≡ first_unknown (map (λ n. n.now) known.now) pairs.now }
{
    let mut least = None;
    for pair in pairs {
        let name = pair.name.as_str();
        if !is_among(name, known) {
            least = Some(lesser(least, name));
        }
    }
    least
}

/// The part of a list, of `most` at most, that a query text asks for, which has none but these members; or the first member that is
/// at fault.
pub fn part_in<'p>(pairs: &'p [Pair], most: u32, known: &[&str]) -> Result<Part, &'p str>
    ensures part { IfOk result (λ part. part_in most (map (λ n. n.now) known.now) pairs.now
        ≡ Ok part) }
    ensures fault { IfErr result (λ name.
        part_in most (map (λ n. n.now) known.now) pairs.now ≡ Err name.now) }
{
    let Some(from) = from_in(pairs) else {
        return Err("from");
    };
    let Some(count) = count_in(pairs, most) else {
        return Err("count");
    };
    match first_unknown(pairs, known) {
        Some(other) => Err(other),
        None => Ok(Part { from, count }),
    }
}
