// Lists of items, choices and predicates.
ghost use Rattle.std.specs.Prelude.{◌≡◌, [], ◌∷◌, ◌++◌, map, IfOk, IfErr};
ghost use Rattle.jql_syntax.specs.Node.{a_call, a_value, an_item, members, a_choice, a_predicate, an_aspect};
ghost use Rattle.jql_syntax.specs.Form.{one, both, either, many, rule};
ghost use Rattle.jql_syntax.specs.Grammar.{key, call, value, date, item, item_or_author, list, some, listed, separated, predicate, aspect, on_dates};
ghost use Rattle.jql_syntax.specs.Machine.{first, look};
ghost use Rattle.jql_syntax.specs.Reader.{Goes, Stops, words};
ghost use Rattle.jql_syntax.specs.declared.token.Mark.TheVariants.{Open, Close, Comma};

use crate::query::{Aspect, Choice, Item, Members, Predicate, Value};
use crate::read_value::{read_author, read_call_as_list, read_date, read_item};
use crate::take::{Stop, fault, starts, take};
use crate::token::{Mark, Placed};
use field_values::Sequence;
use std::alloc::Global;

// An item, or an author.
fn read_member(alloc: Global, author: bool, ts: &[Placed]) -> Result<(Item, &[Placed]), Stop>
    ensures ok { IfOk result (λ x. Goes (item_or_author author) ts.now x.1.now (an_item x.0 ∷ [])) }
    ensures err { IfErr result (Stops (item_or_author author) ts.now) }
{
    if author {
        read_author(alloc, ts)
    } else {
        read_item(alloc, ts)
    }
}

// One or more with commas between them.
fn read_members(
    alloc: Global,
    author: bool,
    ts: &[Placed],
) -> Result<(Sequence<Item>, &[Placed]), Stop>
    ensures ok { IfOk result (λ x. Goes (separated (item_or_author author) Comma) ts.now x.1.now
        (map an_item x.0)) }
    ensures err { IfErr result (Stops (separated (item_or_author author) Comma) ts.now) }
{
    let (first, after) = read_member(alloc, author, ts)?;
    let mut items = Sequence::new(alloc);
    items.push(first)?;
    let mut rest = after;
    'members: while let Some(after) = take(Mark::Comma, rest) {
        let (item, after) = read_member(alloc, author, after)?;
        items.push(item)?;
        rest = after;
    }
    Ok((items, rest))
}

// One or more in parentheses.
fn read_listed(
    alloc: Global,
    author: bool,
    ts: &[Placed],
) -> Result<(Sequence<Item>, &[Placed]), Stop>
    ensures ok { IfOk result (λ x. Goes (listed (item_or_author author)) ts.now x.1.now
        (map an_item x.0)) }
    ensures err { IfErr result (Stops (listed (item_or_author author)) ts.now) }
{
    let Some(inside) = take(Mark::Open, ts) else {
        return Err(fault(ts));
    };
    let (items, rest) = read_members(alloc, author, inside)?;
    match take(Mark::Close, rest) {
        Some(after) => Ok((items, after)),
        None => Err(fault(rest)),
    }
}

/// What stands behind IN.
pub(crate) fn read_list(alloc: Global, ts: &[Placed]) -> Result<(Members, &[Placed]), Stop>
    ensures ok { IfOk result (λ x. Goes list ts.now x.1.now (members x.0 ∷ [])) }
    ensures err { IfErr result (Stops list ts.now) }
{
    if starts(Mark::Open, ts) {
        let (items, rest) = read_listed(alloc, false, ts)?;
        return Ok((Members::Items(items), rest));
    }
    let (call, rest) = read_call_as_list(alloc, ts)?;
    Ok((Members::Call(call), rest))
}

// One, or a list in parentheses.
fn read_choice(alloc: Global, author: bool, ts: &[Placed]) -> Result<(Choice, &[Placed]), Stop>
    ensures ok { IfOk result (λ x. Goes (some (item_or_author author)) ts.now x.1.now
        (a_choice x.0 ∷ [])) }
    ensures err { IfErr result (Stops (some (item_or_author author)) ts.now) }
{
    if starts(Mark::Open, ts) {
        let (items, rest) = read_listed(alloc, author, ts)?;
        return Ok((Choice::Several(items), rest));
    }
    let (item, rest) = read_member(alloc, author, ts)?;
    Ok((Choice::One(item), rest))
}

/// A keyword and a date.
pub(crate) fn read_keyed_date(
    alloc: Global,
    mark: Mark,
    ts: &[Placed],
) -> Result<(Value, &[Placed]), Stop>
    ensures ok { IfOk result (λ x. Goes (both (key mark) date) ts.now x.1.now (a_value x.0 ∷ [])) }
    ensures err { IfErr result (Stops (both (key mark) date) ts.now) }
{
    let Some(rest) = take(mark, ts) else {
        return Err(fault(ts));
    };
    read_date(alloc, rest)
}

/// A keyword and a choice.
pub(crate) fn read_keyed_choice(
    alloc: Global,
    mark: Mark,
    author: bool,
    ts: &[Placed],
) -> Result<(Choice, &[Placed]), Stop>
    ensures ok { IfOk result (λ x. Goes
        (both (key mark) (some (item_or_author author))) ts.now x.1.now (a_choice x.0 ∷ [])) }
    ensures err { IfErr result (Stops (both (key mark) (some (item_or_author author))) ts.now) }
{
    let Some(rest) = take(mark, ts) else {
        return Err(fault(ts));
    };
    read_choice(alloc, author, rest)
}
