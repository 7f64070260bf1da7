// Fields, calls, values, items and lists.
ghost use Rattle.std.specs.Prelude.{◌≡◌, [], ◌∷◌, ◌++◌, map, IfOk, IfErr, option_map};
ghost use Rattle.jql_syntax.specs.Node.{a_field, a_call, a_value, an_item, members, a_choice};
ghost use Rattle.jql_syntax.specs.Form.{one, both, either, many, rule, nothing, any_text};
ghost use Rattle.jql_syntax.specs.Grammar.{key, field, argument, call, call_as_list, value, date, item, author, list, some, listed};
ghost use Rattle.jql_syntax.specs.Reader.{Goes, Stops, argument_parts};
ghost use Rattle.jql_syntax.specs.declared.token.Mark.TheVariants.{Open, Close};

use crate::query::{Call, Choice, Field, Item, Members, Value};
use crate::take::{
    Stop, fault, starts, starts_value, take, take_date, take_name, take_number, take_plain,
    take_text, take_word,
};
use crate::token::{Mark, Placed};
use field_values::{Memory, Sequence, Text};
use std::alloc::Global;

/// A field.
pub(crate) fn read_field(alloc: Global, ts: &[Placed]) -> Result<(Field, &[Placed]), Stop>
    ensures ok { IfOk result (λ x. Goes field ts.now x.1.now (a_field x.0 ∷ [])) }
    ensures err { IfErr result (Stops field ts.now) }
{
    if let Some((text, rest)) = take_text(ts) {
        return Ok((Field::Named(text.copy(alloc)?), rest));
    }
    match take_number(ts) {
        Some((number, rest)) => Ok((Field::Custom(number), rest)),
        None => Err(fault(ts)),
    }
}

// A text, where one stands first.
fn read_optional(alloc: Global, ts: &[Placed]) -> Result<(Option<Text>, &[Placed]), Memory>
    ensures { IfOk result (λ x. Goes (either (one any_text) nothing) ts.now x.1.now
        (argument_parts x.0)) }
{
    match take_text(ts) {
        Some((text, rest)) => Ok((Some(text.copy(alloc)?), rest)),
        None => Ok((None, ts)),
    }
}

// A text or nothing in parentheses.
fn read_argument(alloc: Global, ts: &[Placed]) -> Result<(Option<Text>, &[Placed]), Stop>
    ensures ok { IfOk result (λ x. Goes argument ts.now x.1.now (argument_parts x.0)) }
    ensures err { IfErr result (Stops argument ts.now) }
{
    let Some(inside) = take(Mark::Open, ts) else {
        return Err(fault(ts));
    };
    let (argument, rest) = read_optional(alloc, inside)?;
    match take(Mark::Close, rest) {
        Some(after) => Ok((argument, after)),
        None => Err(fault(rest)),
    }
}

/// A call.
pub(crate) fn read_call(alloc: Global, ts: &[Placed]) -> Result<(Call, &[Placed]), Stop>
    ensures ok { IfOk result (λ x. Goes call ts.now x.1.now (a_call x.0 ∷ [])) }
    ensures err { IfErr result (Stops call ts.now) }
{
    let Some((name, rest)) = take_name(ts) else {
        return Err(fault(ts));
    };
    let (argument, rest) = read_argument(alloc, rest)?;
    let name = name.copy(alloc)?;
    Ok((Call { name, argument }, rest))
}

/// A call, where nothing else begins with a word.
pub(crate) fn read_call_as_list(alloc: Global, ts: &[Placed]) -> Result<(Call, &[Placed]), Stop>
    ensures ok { IfOk result (λ x. Goes call_as_list ts.now x.1.now (a_call x.0 ∷ [])) }
    ensures err { IfErr result (Stops call_as_list ts.now) }
{
    let Some((name, rest)) = take_word(ts) else {
        return Err(fault(ts));
    };
    let (argument, rest) = read_argument(alloc, rest)?;
    let name = name.copy(alloc)?;
    Ok((Call { name, argument }, rest))
}

/// A text or a call.
pub(crate) fn read_value(alloc: Global, ts: &[Placed]) -> Result<(Value, &[Placed]), Stop>
    ensures ok { IfOk result (λ x. Goes value ts.now x.1.now (a_value x.0 ∷ [])) }
    ensures err { IfErr result (Stops value ts.now) }
{
    if let Some((text, rest)) = take_plain(ts) {
        return Ok((Value::Text(text.copy(alloc)?), rest));
    }
    let (call, rest) = read_call(alloc, ts)?;
    Ok((Value::Call(call), rest))
}

/// A date: a text that is one, or a call.
pub(crate) fn read_date(alloc: Global, ts: &[Placed]) -> Result<(Value, &[Placed]), Stop>
    ensures ok { IfOk result (λ x. Goes date ts.now x.1.now (a_value x.0 ∷ [])) }
    ensures err { IfErr result (Stops date ts.now) }
{
    if let Some((text, rest)) = take_date(ts)? {
        return Ok((Value::Text(text.copy(alloc)?), rest));
    }
    let (call, rest) = read_call(alloc, ts)?;
    Ok((Value::Call(call), rest))
}

/// A value or EMPTY.
pub(crate) fn read_item(alloc: Global, ts: &[Placed]) -> Result<(Item, &[Placed]), Stop>
    ensures ok { IfOk result (λ x. Goes item ts.now x.1.now (an_item x.0 ∷ [])) }
    ensures err { IfErr result (Stops item ts.now) }
{
    if starts_value(ts) {
        return read_author(alloc, ts);
    }
    match take(Mark::Empty, ts) {
        Some(rest) => Ok((Item::Empty, rest)),
        None => Err(fault(ts)),
    }
}

/// A value, as an item.
pub(crate) fn read_author(alloc: Global, ts: &[Placed]) -> Result<(Item, &[Placed]), Stop>
    ensures ok { IfOk result (λ x. Goes author ts.now x.1.now (an_item x.0 ∷ [])) }
    ensures err { IfErr result (Stops author ts.now) }
{
    let (value, rest) = read_value(alloc, ts)?;
    Ok((Item::Value(value), rest))
}
