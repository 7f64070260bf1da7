// Conditions. An OR stands in parentheses inside AND, OR and NOT, and an AND inside AND and NOT.
ghost use Rattle.std.specs.Prelude.{◌≡◌, ◌∷◌, ◌++◌, [], OnOk, option_map};
ghost use Rattle.jql_syntax.specs.View.{view, views};
ghost use Rattle.jql_print.specs.Print.{between, unit_text, units_text, conjunction_text, conjunctions_text, expression_text};
ghost use Rattle.jql_print.specs.Spelling.{Writes};
ghost use Rattle.jql_syntax.specs.declared.token.Token.TheVariants.{Marked};

use crate::line::{Line, put};
use crate::write_test::write_leaf;
use field_values::Memory;
use jql_syntax::{Expr, Mark};
use std::alloc::Global;

// The keyword before each condition but the first.
fn put_between(line: &mut Line, index: usize, mark: Mark) -> Result<(), Memory>
    ensures { OnOk result (Writes line.old line.new (between index mark)) }
{
    if index == 0 {
        return Ok(());
    }
    put(line, mark)
}

/// A condition alone.
pub(crate) fn write_expr(alloc: Global, line: &mut Line, expr: &Expr) -> Result<(), Memory>
    ensures { OnOk result (Writes line.old line.new (expression_text (view expr.now))) }
{
    match expr {
        Expr::Any(conjunctions) => write_conjunctions(alloc, line, conjunctions),
        _ => write_conjunction(alloc, line, expr),
    }
}

// A condition inside AND or NOT.
#[cycle(writer)]
fn write_unit(alloc: Global, line: &mut Line, expr: &Expr) -> Result<(), Memory>
    ensures { OnOk result (Writes line.old line.new (unit_text (view expr.now))) }
{
    match expr {
        Expr::Leaf(leaf) => write_leaf(alloc, line, leaf),
        Expr::Not(inner) => {
            put(line, Mark::Not)?;
            write_unit(alloc, line, inner)
        }
        Expr::All(units) => {
            put(line, Mark::Open)?;
            write_units(alloc, line, units)?;
            put(line, Mark::Close)
        }
        Expr::Any(conjunctions) => {
            put(line, Mark::Open)?;
            write_conjunctions(alloc, line, conjunctions)?;
            put(line, Mark::Close)
        }
    }
}

// A condition inside OR.
#[cycle(writer)]
fn write_conjunction(alloc: Global, line: &mut Line, expr: &Expr) -> Result<(), Memory>
    ensures { OnOk result (Writes line.old line.new (conjunction_text (view expr.now))) }
{
    match expr {
        Expr::All(units) => write_units(alloc, line, units),
        _ => write_unit(alloc, line, expr),
    }
}

#[cycle(writer)]
fn write_units(alloc: Global, line: &mut Line, units: &[Expr]) -> Result<(), Memory>
    ensures { OnOk result (Writes line.old line.new (units_text (views units.now))) }
{
    for (i, unit) in units.iter().enumerate() {
        put_between(line, i, Mark::And)?;
        write_unit(alloc, line, unit)?;
    }
    Ok(())
}

#[cycle(writer)]
fn write_conjunctions(alloc: Global, line: &mut Line, conjunctions: &[Expr]) -> Result<(), Memory>
    ensures { OnOk result (Writes line.old line.new (conjunctions_text (views conjunctions.now))) }
{
    for (i, conjunction) in conjunctions.iter().enumerate() {
        put_between(line, i, Mark::Or)?;
        write_conjunction(alloc, line, conjunction)?;
    }
    Ok(())
}
