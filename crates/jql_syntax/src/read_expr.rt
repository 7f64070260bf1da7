// Conditions.
ghost use Rattle.std.specs.Prelude.{◌≡◌, [], ◌∷◌, ◌++◌, map, IfOk, IfErr};
ghost use Rattle.jql_syntax.specs.Tree.{all_of, any_of};
ghost use Rattle.jql_syntax.specs.Node.{condition, negated, one_or};
ghost use Rattle.jql_syntax.specs.Form.{both, rule, unit};
ghost use Rattle.jql_syntax.specs.Grammar.{key, leaf, conjunction, expression};
ghost use Rattle.jql_syntax.specs.View.{view, views, node};
ghost use Rattle.jql_syntax.specs.Machine.{look, looks};
ghost use Rattle.jql_syntax.specs.Reader.{Goes, Stops, words};
ghost use Rattle.jql_syntax.specs.declared.token.Mark.TheVariants.{Not, Open, Close, And, Or};

use crate::query::Expr;
use crate::read_test::read_leaf;
use crate::take::{Stop, fault, starts, take};
use crate::token::{Kind, Mark, Placed};
use std::alloc::Global;

// One condition alone, or all of several.
fn all_of(mut units: Vec<Expr>) -> Expr
    ensures { view result ≡ one_or all_of (views units.items) }
{
    if units.len() > 1 {
        return Expr::All(units);
    }
    match units.pop() {
        Some(only) => only,
        None => Expr::All(units),
    }
}

// One condition alone, or any of several.
fn any_of(mut conjunctions: Vec<Expr>) -> Expr
    ensures { view result ≡ one_or any_of (views conjunctions.items) }
{
    if conjunctions.len() > 1 {
        return Expr::Any(conjunctions);
    }
    match conjunctions.pop() {
        Some(only) => only,
        None => Expr::Any(conjunctions),
    }
}

// A test of a field, as a condition.
fn read_single(alloc: Global, ts: &[Placed]) -> Result<(Expr, &[Placed]), Stop>
    ensures ok { IfOk result (λ x. Goes leaf ts.now x.1.now (node x.0 ∷ [])) }
    ensures err { IfErr result (Stops leaf ts.now) }
{
    let (leaf, rest) = read_leaf(alloc, ts)?;
    Ok((Expr::Leaf(leaf), rest))
}

// A unit of a condition, where so many NOTs and parentheses may be opened.
#[cycle(reader)]
fn read_unit(alloc: Global, room: u32, ts: &[Placed]) -> Result<(Expr, &[Placed]), Stop>
    ensures ok { IfOk result (λ x. Goes (unit room) ts.now x.1.now (node x.0 ∷ [])) }
    ensures err { IfErr result (Stops (unit room) ts.now) }
{
    if starts(Mark::Not, ts) {
        if room == 0 {
            return Err(Stop::At(Kind::TooDeep, ts.len()));
        }
        return read_not(alloc, room - 1, ts);
    }
    if starts(Mark::Open, ts) {
        if room == 0 {
            return Err(Stop::At(Kind::TooDeep, ts.len()));
        }
        return read_group(alloc, room - 1, ts);
    }
    read_single(alloc, ts)
}

// NOT and a unit.
#[cycle(reader)]
fn read_not(alloc: Global, room: u32, ts: &[Placed]) -> Result<(Expr, &[Placed]), Stop>
    ensures ok { IfOk result (λ x. Goes (rule negated (both (key Not) (unit room))) ts.now x.1.now
        (node x.0 ∷ [])) }
    ensures err { IfErr result (Stops (rule negated (both (key Not) (unit room))) ts.now) }
{
    let Some(rest) = take(Mark::Not, ts) else {
        return Err(fault(ts));
    };
    let (unit, rest) = read_unit(alloc, room, rest)?;
    let unit = Box::new(alloc, unit)?;
    Ok((Expr::Not(unit), rest))
}

// A condition in parentheses.
#[cycle(reader)]
fn read_group(alloc: Global, room: u32, ts: &[Placed]) -> Result<(Expr, &[Placed]), Stop>
    ensures ok { IfOk result (λ x. Goes
        (both (key Open) (both (expression room) (key Close))) ts.now x.1.now (node x.0 ∷ [])) }
    ensures err { IfErr result (Stops
        (both (key Open) (both (expression room) (key Close))) ts.now) }
{
    let Some(inside) = take(Mark::Open, ts) else {
        return Err(fault(ts));
    };
    let (inner, rest) = read_expr(alloc, room, inside)?;
    match take(Mark::Close, rest) {
        Some(after) => Ok((inner, after)),
        None => {
            drop(inner);
            Err(fault(rest))
        }
    }
}

#[cycle(reader)]
fn read_conjunction(alloc: Global, room: u32, ts: &[Placed]) -> Result<(Expr, &[Placed]), Stop>
    ensures ok { IfOk result (λ x. Goes (conjunction room) ts.now x.1.now (node x.0 ∷ [])) }
    ensures err { IfErr result (Stops (conjunction room) ts.now) }
{
    let (first, after) = read_unit(alloc, room, ts)?;
    let mut units = Vec::new(alloc);
    units.push(first)?;
    let mut rest = after;
    'units: while let Some(after) = take(Mark::And, rest) {
        let (unit, after) = read_unit(alloc, room, after)?;
        units.push(unit)?;
        rest = after;
    }
    Ok((all_of(units), rest))
}

/// A condition, where so many NOTs and parentheses may be open at one place.
#[cycle(reader)]
pub(crate) fn read_expr(alloc: Global, room: u32, ts: &[Placed]) -> Result<(Expr, &[Placed]), Stop>
    ensures ok { IfOk result (λ x. Goes (expression room) ts.now x.1.now (node x.0 ∷ [])) }
    ensures err { IfErr result (Stops (expression room) ts.now) }
{
    let (first, after) = read_conjunction(alloc, room, ts)?;
    let mut conjunctions = Vec::new(alloc);
    conjunctions.push(first)?;
    let mut rest = after;
    'conjunctions: while let Some(after) = take(Mark::Or, rest) {
        let (conjunction, after) = read_conjunction(alloc, room, after)?;
        conjunctions.push(conjunction)?;
        rest = after;
    }
    Ok((any_of(conjunctions), rest))
}
