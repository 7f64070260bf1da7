// What is asked of fields.
ghost use Rattle.std.specs.Prelude.{◌≡◌, ◌∷◌, OnOk};
ghost use Rattle.jql_print.specs.Print.{field_text, value_text, item_text, each, members_text, choice_text, predicate_text, aspect_text, comparison_mark, test_text, leaf_text};
ghost use Rattle.jql_print.specs.Spelling.{Writes};
ghost use Rattle.jql_syntax.specs.declared.token.Token.TheVariants.{Marked};
ghost use Rattle.jql_syntax.specs.declared.token.Mark.TheVariants.{Is, Not, Empty};

use crate::line::{Line, put};
use crate::write_value::{write_choice, write_field, write_item, write_members, write_value};
use field_values::Memory;
use jql_syntax::{Aspect, Choice, Comparison, Item, Leaf, Mark, Members, Predicate, Test, Value};
use std::alloc::Global;

// A value behind a sign or a keyword.
fn write_keyed_value(line: &mut Line, mark: Mark, value: &Value) -> Result<(), Memory>
    ensures { OnOk result (Writes line.old line.new
        (λ rest. Marked mark ∷ value_text value.now rest)) }
{
    put(line, mark)?;
    write_value(line, value)
}

fn write_keyed_item(line: &mut Line, mark: Mark, item: &Item) -> Result<(), Memory>
    ensures { OnOk result (Writes line.old line.new
        (λ rest. Marked mark ∷ item_text item.now rest)) }
{
    put(line, mark)?;
    write_item(line, item)
}

fn write_keyed_members(line: &mut Line, mark: Mark, members: &Members) -> Result<(), Memory>
    ensures { OnOk result (Writes line.old line.new
        (λ rest. Marked mark ∷ members_text members.now rest)) }
{
    put(line, mark)?;
    write_members(line, members)
}

fn write_keyed_choice(line: &mut Line, mark: Mark, choice: &Choice) -> Result<(), Memory>
    ensures { OnOk result (Writes line.old line.new
        (λ rest. Marked mark ∷ choice_text choice.now rest)) }
{
    put(line, mark)?;
    write_choice(line, choice)
}

// DURING and its two dates.
fn write_during(line: &mut Line, start: &Value, end: &Value) -> Result<(), Memory>
    ensures { OnOk result (Writes line.old line.new
        (predicate_text (Predicate.During start.now end.now))) }
{
    put(line, Mark::During)?;
    write_keyed_value(line, Mark::Open, start)?;
    write_keyed_value(line, Mark::Comma, end)?;
    put(line, Mark::Close)
}

fn write_predicate(line: &mut Line, predicate: &Predicate) -> Result<(), Memory>
    ensures { OnOk result (Writes line.old line.new (predicate_text predicate.now)) }
{
    match predicate {
        Predicate::After(date) => write_keyed_value(line, Mark::After, date),
        Predicate::Before(date) => write_keyed_value(line, Mark::Before, date),
        Predicate::On(date) => write_keyed_value(line, Mark::On, date),
        Predicate::During(start, end) => write_during(line, start, end),
        Predicate::By(choice) => write_keyed_choice(line, Mark::By, choice),
    }
}

fn write_predicates(line: &mut Line, predicates: &[Predicate]) -> Result<(), Memory>
    ensures { OnOk result (Writes line.old line.new (each predicate_text predicates.now)) }
{
    for predicate in predicates {
        write_predicate(line, predicate)?;
    }
    Ok(())
}

fn write_aspect(line: &mut Line, aspect: &Aspect) -> Result<(), Memory>
    ensures { OnOk result (Writes line.old line.new (aspect_text aspect.now)) }
{
    match aspect {
        Aspect::Predicate(predicate) => write_predicate(line, predicate),
        Aspect::From(choice) => write_keyed_choice(line, Mark::From, choice),
        Aspect::To(choice) => write_keyed_choice(line, Mark::To, choice),
    }
}

fn write_aspects(line: &mut Line, aspects: &[Aspect]) -> Result<(), Memory>
    ensures { OnOk result (Writes line.old line.new (each aspect_text aspects.now)) }
{
    for aspect in aspects {
        write_aspect(line, aspect)?;
    }
    Ok(())
}

fn comparison_mark(comparison: Comparison) -> Mark
    ensures { result ≡ comparison_mark comparison }
{
    match comparison {
        Comparison::Greater => Mark::Greater,
        Comparison::GreaterOrEqual => Mark::GreaterOrEqual,
        Comparison::Less => Mark::Less,
        Comparison::LessOrEqual => Mark::LessOrEqual,
        Comparison::Contains => Mark::Contains,
        Comparison::Lacks => Mark::Lacks,
    }
}

fn write_is_not_empty(line: &mut Line) -> Result<(), Memory>
    ensures { OnOk result (Writes line.old line.new
        (λ rest. Marked Is ∷ Marked Not ∷ Marked Empty ∷ rest)) }
{
    put(line, Mark::Is)?;
    put(line, Mark::Not)?;
    put(line, Mark::Empty)
}

fn write_is_empty(line: &mut Line) -> Result<(), Memory>
    ensures { OnOk result (Writes line.old line.new (λ rest. Marked Is ∷ Marked Empty ∷ rest)) }
{
    put(line, Mark::Is)?;
    put(line, Mark::Empty)
}

fn write_not_in(line: &mut Line, members: &Members) -> Result<(), Memory>
    ensures { OnOk result (Writes line.old line.new (test_text (Test.NotIn members.now))) }
{
    put(line, Mark::Not)?;
    write_keyed_members(line, Mark::In, members)
}

fn write_was(line: &mut Line, item: &Item, predicates: &[Predicate]) -> Result<(), Memory>
    ensures { OnOk result (Writes line.old line.new
        (test_text (Test.Was item.now predicates.now))) }
{
    write_keyed_item(line, Mark::Was, item)?;
    write_predicates(line, predicates)
}

fn write_was_not(line: &mut Line, item: &Item, predicates: &[Predicate]) -> Result<(), Memory>
    ensures { OnOk result (Writes line.old line.new
        (test_text (Test.WasNot item.now predicates.now))) }
{
    put(line, Mark::Was)?;
    write_keyed_item(line, Mark::Not, item)?;
    write_predicates(line, predicates)
}

fn write_was_in(line: &mut Line, members: &Members, predicates: &[Predicate]) -> Result<(), Memory>
    ensures { OnOk result (Writes line.old line.new
        (test_text (Test.WasIn members.now predicates.now))) }
{
    put(line, Mark::Was)?;
    write_keyed_members(line, Mark::In, members)?;
    write_predicates(line, predicates)
}

fn write_was_not_in(
    line: &mut Line,
    members: &Members,
    predicates: &[Predicate],
) -> Result<(), Memory>
    ensures { OnOk result (Writes line.old line.new
        (test_text (Test.WasNotIn members.now predicates.now))) }
{
    put(line, Mark::Was)?;
    put(line, Mark::Not)?;
    write_keyed_members(line, Mark::In, members)?;
    write_predicates(line, predicates)
}

fn write_changed(line: &mut Line, aspects: &[Aspect]) -> Result<(), Memory>
    ensures { OnOk result (Writes line.old line.new (test_text (Test.Changed aspects.now))) }
{
    put(line, Mark::Changed)?;
    write_aspects(line, aspects)
}

fn write_test(line: &mut Line, test: &Test) -> Result<(), Memory>
    ensures { OnOk result (Writes line.old line.new (test_text test.now)) }
{
    match test {
        Test::Equals(item) => write_keyed_item(line, Mark::Equals, item),
        Test::NotEquals(item) => write_keyed_item(line, Mark::NotEquals, item),
        Test::Compares(comparison, value) => {
            write_keyed_value(line, comparison_mark(*comparison), value)
        }
        Test::In(members) => write_keyed_members(line, Mark::In, members),
        Test::NotIn(members) => write_not_in(line, members),
        Test::IsEmpty => write_is_empty(line),
        Test::IsNotEmpty => write_is_not_empty(line),
        Test::Was(item, predicates) => write_was(line, item, predicates.as_slice()),
        Test::WasNot(item, predicates) => write_was_not(line, item, predicates.as_slice()),
        Test::WasIn(members, predicates) => write_was_in(line, members, predicates.as_slice()),
        Test::WasNotIn(members, predicates) => {
            write_was_not_in(line, members, predicates.as_slice())
        }
        Test::Changed(aspects) => write_changed(line, aspects.as_slice()),
    }
}

/// A test of a field.
pub(crate) fn write_leaf(alloc: Global, line: &mut Line, leaf: &Leaf) -> Result<(), Memory>
    ensures { OnOk result (Writes line.old line.new (leaf_text leaf.now)) }
{
    write_field(alloc, line, &leaf.field)?;
    write_test(line, &leaf.test)
}
