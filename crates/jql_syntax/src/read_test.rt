// Tests of fields.
ghost use Rattle.std.specs.Prelude.{◌≡◌, [], ◌∷◌, ◌++◌, map, IfOk, IfErr};
ghost use Rattle.jql_syntax.specs.Node.{made, a_field, a_value, an_item, a_predicate, a_test, members, condition, equals, not_equals, among, not_among};
ghost use Rattle.jql_syntax.specs.Form.{one, both, either, many, rule};
ghost use Rattle.jql_syntax.specs.Tree.{single};
ghost use Rattle.jql_syntax.specs.Grammar.{key, item, list, predicate, compared, comparison, emptiness, is_test, among_then, item_then, past_among, past_item, past, was_test, changed_test, test, leaf};
ghost use Rattle.jql_syntax.specs.Reader.{Goes, Stops, words};
ghost use Rattle.jql_syntax.specs.declared.token.Mark.TheVariants.{In, Not};

use crate::query::{Comparison, Item, Leaf, Members, Predicate, Test};
use crate::read_list::read_list;
use crate::read_past::{read_aspects, read_predicates};
use crate::read_value::{read_field, read_item, read_value};
use crate::take::{Stop, fault, starts, take};
use crate::token::{Mark, Placed};
use field_values::Sequence;
use std::alloc::Global;

// A sign and an item.
fn read_keyed_item(alloc: Global, mark: Mark, ts: &[Placed]) -> Result<(Item, &[Placed]), Stop>
    ensures ok { IfOk result (λ x. Goes (both (key mark) item) ts.now x.1.now (an_item x.0 ∷ [])) }
    ensures err { IfErr result (Stops (both (key mark) item) ts.now) }
{
    let Some(rest) = take(mark, ts) else {
        return Err(fault(ts));
    };
    read_item(alloc, rest)
}

// A comparison's sign and a value.
fn read_compared(
    alloc: Global,
    comparison: Comparison,
    mark: Mark,
    ts: &[Placed],
) -> Result<(Test, &[Placed]), Stop>
    ensures ok { IfOk result (λ x. Goes (compared comparison mark) ts.now x.1.now
        (a_test x.0 ∷ [])) }
    ensures err { IfErr result (Stops (compared comparison mark) ts.now) }
{
    let Some(rest) = take(mark, ts) else {
        return Err(fault(ts));
    };
    let (value, rest) = read_value(alloc, rest)?;
    Ok((Test::Compares(comparison, value), rest))
}

// A comparison with a value.
fn read_comparison(alloc: Global, ts: &[Placed]) -> Result<(Test, &[Placed]), Stop>
    ensures ok { IfOk result (λ x. Goes comparison ts.now x.1.now (a_test x.0 ∷ [])) }
    ensures err { IfErr result (Stops comparison ts.now) }
{
    if starts(Mark::Greater, ts) {
        return read_compared(alloc, Comparison::Greater, Mark::Greater, ts);
    }
    if starts(Mark::GreaterOrEqual, ts) {
        return read_compared(alloc, Comparison::GreaterOrEqual, Mark::GreaterOrEqual, ts);
    }
    if starts(Mark::Less, ts) {
        return read_compared(alloc, Comparison::Less, Mark::Less, ts);
    }
    if starts(Mark::LessOrEqual, ts) {
        return read_compared(alloc, Comparison::LessOrEqual, Mark::LessOrEqual, ts);
    }
    if starts(Mark::Contains, ts) {
        return read_compared(alloc, Comparison::Contains, Mark::Contains, ts);
    }
    read_compared(alloc, Comparison::Lacks, Mark::Lacks, ts)
}

// IN and a list.
fn read_in(alloc: Global, ts: &[Placed]) -> Result<(Members, &[Placed]), Stop>
    ensures ok { IfOk result (λ x. Goes (both (key In) list) ts.now x.1.now (members x.0 ∷ [])) }
    ensures err { IfErr result (Stops (both (key In) list) ts.now) }
{
    let Some(rest) = take(Mark::In, ts) else {
        return Err(fault(ts));
    };
    read_list(alloc, rest)
}

// NOT IN and a list.
fn read_not_in(alloc: Global, ts: &[Placed]) -> Result<(Members, &[Placed]), Stop>
    ensures ok { IfOk result (λ x. Goes (both (key Not) (both (key In) list)) ts.now x.1.now
        (members x.0 ∷ [])) }
    ensures err { IfErr result (Stops (both (key Not) (both (key In) list)) ts.now) }
{
    let Some(rest) = take(Mark::Not, ts) else {
        return Err(fault(ts));
    };
    read_in(alloc, rest)
}

// EMPTY or NOT EMPTY.
fn read_emptiness(ts: &[Placed]) -> Result<(Test, &[Placed]), Stop>
    ensures ok { IfOk result (λ x. Goes emptiness ts.now x.1.now (a_test x.0 ∷ [])) }
    ensures err { IfErr result (Stops emptiness ts.now) }
{
    if let Some(rest) = take(Mark::Not, ts) {
        return match take(Mark::Empty, rest) {
            Some(after) => Ok((Test::IsNotEmpty, after)),
            None => Err(fault(rest)),
        };
    }
    match take(Mark::Empty, ts) {
        Some(after) => Ok((Test::IsEmpty, after)),
        None => Err(fault(ts)),
    }
}

// IS EMPTY or IS NOT EMPTY.
fn read_is(ts: &[Placed]) -> Result<(Test, &[Placed]), Stop>
    ensures ok { IfOk result (λ x. Goes is_test ts.now x.1.now (a_test x.0 ∷ [])) }
    ensures err { IfErr result (Stops is_test ts.now) }
{
    let Some(rest) = take(Mark::Is, ts) else {
        return Err(fault(ts));
    };
    read_emptiness(rest)
}

// IN, a list and predicates.
fn read_past_members(
    alloc: Global,
    ts: &[Placed],
) -> Result<(Members, Sequence<Predicate>, &[Placed]), Stop>
    ensures ok { IfOk result (λ x. Goes past_among ts.now x.2.now
        (members x.0 ∷ map a_predicate x.1)) }
    ensures err { IfErr result (Stops past_among ts.now) }
{
    let Some(rest) = take(Mark::In, ts) else {
        return Err(fault(ts));
    };
    let (members, rest) = read_list(alloc, rest)?;
    let (predicates, rest) = read_predicates(alloc, rest)?;
    Ok((members, predicates, rest))
}

// An item and predicates.
fn read_past_item(
    alloc: Global,
    ts: &[Placed],
) -> Result<(Item, Sequence<Predicate>, &[Placed]), Stop>
    ensures ok { IfOk result (λ x. Goes past_item ts.now x.2.now
        (an_item x.0 ∷ map a_predicate x.1)) }
    ensures err { IfErr result (Stops past_item ts.now) }
{
    let (item, rest) = read_item(alloc, ts)?;
    let (predicates, rest) = read_predicates(alloc, rest)?;
    Ok((item, predicates, rest))
}

fn was_in(negated: bool, list: Members, predicates: Sequence<Predicate>) -> Test
    ensures { made (among_then negated) (members list ∷ map a_predicate predicates)
        ≡ a_test result ∷ [] }
{
    if negated {
        Test::WasNotIn(list, predicates)
    } else {
        Test::WasIn(list, predicates)
    }
}

fn was(negated: bool, item: Item, predicates: Sequence<Predicate>) -> Test
    ensures { made (item_then negated) (an_item item ∷ map a_predicate predicates)
        ≡ a_test result ∷ [] }
{
    if negated {
        Test::WasNot(item, predicates)
    } else {
        Test::Was(item, predicates)
    }
}

// What stands behind WAS or WAS NOT.
fn read_past(alloc: Global, negated: bool, ts: &[Placed]) -> Result<(Test, &[Placed]), Stop>
    ensures ok { IfOk result (λ x. Goes (past negated) ts.now x.1.now (a_test x.0 ∷ [])) }
    ensures err { IfErr result (Stops (past negated) ts.now) }
{
    if starts(Mark::In, ts) {
        let (members, predicates, rest) = read_past_members(alloc, ts)?;
        return Ok((was_in(negated, members, predicates), rest));
    }
    let (item, predicates, rest) = read_past_item(alloc, ts)?;
    Ok((was(negated, item, predicates), rest))
}

// WAS and what stands behind it.
fn read_was(alloc: Global, ts: &[Placed]) -> Result<(Test, &[Placed]), Stop>
    ensures ok { IfOk result (λ x. Goes was_test ts.now x.1.now (a_test x.0 ∷ [])) }
    ensures err { IfErr result (Stops was_test ts.now) }
{
    let Some(rest) = take(Mark::Was, ts) else {
        return Err(fault(ts));
    };
    match take(Mark::Not, rest) {
        Some(after) => read_past(alloc, true, after),
        None => read_past(alloc, false, rest),
    }
}

// CHANGED and what stands behind it.
fn read_changed(alloc: Global, ts: &[Placed]) -> Result<(Test, &[Placed]), Stop>
    ensures ok { IfOk result (λ x. Goes changed_test ts.now x.1.now (a_test x.0 ∷ [])) }
    ensures err { IfErr result (Stops changed_test ts.now) }
{
    let Some(rest) = take(Mark::Changed, ts) else {
        return Err(fault(ts));
    };
    let (aspects, rest) = read_aspects(alloc, rest)?;
    Ok((Test::Changed(aspects), rest))
}

// What is asked of a field.
fn read_test(alloc: Global, ts: &[Placed]) -> Result<(Test, &[Placed]), Stop>
    ensures ok { IfOk result (λ x. Goes test ts.now x.1.now (a_test x.0 ∷ [])) }
    ensures err { IfErr result (Stops test ts.now) }
{
    if starts(Mark::Equals, ts) {
        let (item, rest) = read_keyed_item(alloc, Mark::Equals, ts)?;
        return Ok((Test::Equals(item), rest));
    }
    if starts(Mark::NotEquals, ts) {
        let (item, rest) = read_keyed_item(alloc, Mark::NotEquals, ts)?;
        return Ok((Test::NotEquals(item), rest));
    }
    if starts(Mark::In, ts) {
        let (members, rest) = read_in(alloc, ts)?;
        return Ok((Test::In(members), rest));
    }
    if starts(Mark::Not, ts) {
        let (members, rest) = read_not_in(alloc, ts)?;
        return Ok((Test::NotIn(members), rest));
    }
    if starts(Mark::Is, ts) {
        return read_is(ts);
    }
    if starts(Mark::Was, ts) {
        return read_was(alloc, ts);
    }
    if starts(Mark::Changed, ts) {
        return read_changed(alloc, ts);
    }
    read_comparison(alloc, ts)
}

/// A test of a field.
pub(crate) fn read_leaf(alloc: Global, ts: &[Placed]) -> Result<(Leaf, &[Placed]), Stop>
    ensures ok { IfOk result (λ x. Goes leaf ts.now x.1.now (condition (single x.0) ∷ [])) }
    ensures err { IfErr result (Stops leaf ts.now) }
{
    let (field, rest) = read_field(alloc, ts)?;
    let (test, rest) = read_test(alloc, rest)?;
    Ok((Leaf { field, test }, rest))
}
