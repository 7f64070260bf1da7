// Sort keys and whole queries.
ghost use Rattle.std.specs.Prelude.{◌≡◌, Option, [], ◌∷◌, ◌++◌, map, IfOk, IfErr, option_map};
ghost use Rattle.jql_syntax.specs.Node.{a_key, a_query};
ghost use Rattle.jql_syntax.specs.Form.{both, either, nothing};
ghost use Rattle.jql_syntax.specs.Grammar.{key, limit, expression, sorting, direction, separated, order, query};
ghost use Rattle.jql_syntax.specs.View.{view, unboxed};
ghost use Rattle.jql_syntax.specs.Machine.{look, looks, unit_looks};
ghost use Rattle.jql_syntax.specs.Reader.{Goes, Stops, words, condition_parts, direction_parts, or_ascending};
ghost use Rattle.jql_syntax.specs.declared.token.Mark.TheVariants.{Order, By, Comma};

use crate::query::{Direction, Expr, SortKey};
use crate::read_expr::read_expr;
use crate::read_value::read_field;
use crate::take::{Stop, fault, starts, starts_field, take};
use crate::token::{Mark, Placed};
use field_values::Sequence;
use std::alloc::Global;

/// How many NOTs and parentheses may be open at one place.
const LIMIT: u32 = 64;

// ASC or DESC, where one stands first.
fn read_direction(ts: &[Placed]) -> (Option<Direction>, &[Placed])
    ensures { Goes direction ts.now result.1.now (direction_parts result.0) }
{
    if let Some(rest) = take(Mark::Ascending, ts) {
        return (Some(Direction::Ascending), rest);
    }
    match take(Mark::Descending, ts) {
        Some(rest) => (Some(Direction::Descending), rest),
        None => (None, ts),
    }
}

fn or_ascending(direction: Option<Direction>) -> Direction
    ensures { result ≡ or_ascending direction }
{
    match direction {
        Some(direction) => direction,
        None => Direction::Ascending,
    }
}

// A field and its direction.
fn read_sorting(alloc: Global, ts: &[Placed]) -> Result<(SortKey, &[Placed]), Stop>
    ensures ok { IfOk result (λ x. Goes sorting ts.now x.1.now (a_key x.0 ∷ [])) }
    ensures err { IfErr result (Stops sorting ts.now) }
{
    let (field, rest) = read_field(alloc, ts)?;
    let (direction, rest) = read_direction(rest);
    let direction = or_ascending(direction);
    Ok((SortKey { field, direction }, rest))
}

// One or more with commas between them.
fn read_sortings(alloc: Global, ts: &[Placed]) -> Result<(Sequence<SortKey>, &[Placed]), Stop>
    ensures ok { IfOk result (λ x. Goes (separated sorting Comma) ts.now x.1.now (map a_key x.0)) }
    ensures err { IfErr result (Stops (separated sorting Comma) ts.now) }
{
    let (first, after) = read_sorting(alloc, ts)?;
    let mut keys = Sequence::new(alloc);
    keys.push(first)?;
    let mut rest = after;
    'keys: while let Some(after) = take(Mark::Comma, rest) {
        let (key, after) = read_sorting(alloc, after)?;
        keys.push(key)?;
        rest = after;
    }
    Ok((keys, rest))
}

// ORDER BY and the sort keys.
fn read_keys(alloc: Global, ts: &[Placed]) -> Result<(Sequence<SortKey>, &[Placed]), Stop>
    ensures ok { IfOk result (λ x. Goes order ts.now x.1.now (map a_key x.0)) }
    ensures err { IfErr result (Stops order ts.now) }
{
    let Some(rest) = take(Mark::Order, ts) else {
        return Err(fault(ts));
    };
    let Some(next) = take(Mark::By, rest) else {
        return Err(fault(rest));
    };
    read_sortings(alloc, next)
}

// The sort keys, where there are some.
fn read_order(alloc: Global, ts: &[Placed]) -> Result<(Sequence<SortKey>, &[Placed]), Stop>
    ensures ok { IfOk result (λ x. Goes (either order nothing) ts.now x.1.now (map a_key x.0)) }
    ensures err { IfErr result (Stops (either order nothing) ts.now) }
{
    if starts(Mark::Order, ts) {
        return read_keys(alloc, ts);
    }
    Ok((Sequence::new(alloc), ts))
}

fn starts_unit(ts: &[Placed]) -> bool
    ensures { result ≡ unit_looks (look (words ts.now)) }
{
    starts_field(ts) || (starts(Mark::Not, ts) || starts(Mark::Open, ts))
}

// The condition, where there is one.
fn read_condition(alloc: Global, ts: &[Placed]) -> Result<(Option<Box<Expr>>, &[Placed]), Stop>
    ensures ok { IfOk result (λ x. Goes (either (expression limit) nothing) ts.now x.1.now
        (condition_parts (option_map view (unboxed x.0)))) }
    ensures err { IfErr result (Stops (either (expression limit) nothing) ts.now) }
{
    if starts_unit(ts) {
        let (expr, rest) = read_expr(alloc, LIMIT, ts)?;
        let expr = Box::new(alloc, expr)?;
        return Ok((Some(expr), rest));
    }
    Ok((None, ts))
}

/// A condition and sort keys.
pub(crate) fn read_query(
    alloc: Global,
    ts: &[Placed],
) -> Result<(Option<Box<Expr>>, Sequence<SortKey>, &[Placed]), Stop>
    ensures ok { IfOk result (λ x. Goes (query limit) ts.now x.2.now
        (a_query (option_map view (unboxed x.0)) x.1 ∷ [])) }
    ensures err { IfErr result (Stops (query limit) ts.now) }
{
    let (condition, rest) = read_condition(alloc, ts)?;
    let (keys, rest) = read_order(alloc, rest)?;
    Ok((condition, keys, rest))
}
