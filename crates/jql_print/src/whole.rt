// Whole queries as texts.
ghost use Rattle.std.specs.Prelude.{◌≡◌, ◌∷◌, ◌≤◌, [], OnOk, IfOk, Option, List, ℕ, option_map, length};
ghost use Rattle.std.specs.Str.{IsUtf8};
ghost use Rattle.jql_syntax.specs.Tree.{Tree};
ghost use Rattle.jql_syntax.specs.View.{view};
ghost use Rattle.jql_syntax.specs.Fault.{IsQuery, IsWritten, most_bytes};
ghost use Rattle.jql_syntax.specs.Grammar.{limit};
ghost use Rattle.jql_print.specs.Print.{condition_text, direction_mark, each, keyed, key_text, order_text, separated};
ghost use Rattle.jql_print.specs.Nesting.{nesting};
ghost use Rattle.jql_print.specs.Spelling.{Writes, query_text};
ghost use Rattle.jql_syntax.specs.declared.token.Mark.TheVariants.{Comma, Order, By};
ghost use Rattle.jql_syntax.specs.declared.token.Token.TheVariants.{Marked};
ghost use Rattle.jql_syntax.specs.declared.query.SortKey.{SortKey as TheSortKey};

use crate::line::{Line, put};
use crate::write_expr::write_expr;
use crate::write_value::write_field;
use field_values::{Memory, Text};
use jql_syntax::{Direction, Mark, Query, SortKey};
use std::alloc::Global;

fn direction_mark(direction: Direction) -> Mark
    ensures { result ≡ direction_mark direction }
{
    match direction {
        Direction::Ascending => Mark::Ascending,
        Direction::Descending => Mark::Descending,
    }
}

fn write_key(alloc: Global, line: &mut Line, key: &SortKey) -> Result<(), Memory>
    ensures { OnOk result (Writes line.old line.new (key_text key.now)) }
{
    write_field(alloc, line, &key.field)?;
    put(line, direction_mark(key.direction))
}

// Sort keys, each behind a comma.
fn write_more_keys(alloc: Global, line: &mut Line, keys: &[SortKey]) -> Result<(), Memory>
    ensures { OnOk result (Writes line.old line.new (each (keyed Comma key_text) keys.now)) }
{
    for key in keys {
        put(line, Mark::Comma)?;
        write_key(alloc, line, key)?;
    }
    Ok(())
}

// ORDER BY and the sort keys.
fn write_sorted(
    alloc: Global,
    line: &mut Line,
    first: &SortKey,
    more: &[SortKey],
) -> Result<(), Memory>
    ensures { OnOk result (Writes line.old line.new
        (λ rest. Marked Order ∷ Marked By
        ∷ key_text first.now (each (keyed Comma key_text) more.now rest))) }
{
    put(line, Mark::Order)?;
    put(line, Mark::By)?;
    write_key(alloc, line, first)?;
    write_more_keys(alloc, line, more)
}

// The sort keys, where there are some.
fn write_order(alloc: Global, line: &mut Line, keys: &[SortKey]) -> Result<(), Memory>
    ensures { OnOk result (Writes line.old line.new (order_text keys.now)) }
{
    match keys.split_first() {
        None => Ok(()),
        Some((first, more)) => write_sorted(alloc, line, first, more),
    }
}

fn write_condition(alloc: Global, line: &mut Line, query: &Query) -> Result<(), Memory>
    ensures writes { OnOk result (Writes line.old line.new
        (condition_text (option_map view query.now.0))) }
    ensures written { IsWritten (option_map view query.now.0) query.now.1 }
{
    match query.condition() {
        None => Ok(()),
        Some(expr) => write_expr(alloc, line, expr),
    }
}

fn spelled(alloc: Global, query: &Query) -> Result<Text, Memory>
    ensures spelling { IfOk result (λ t. t ≡ query_text (option_map view query.now.0) query.now.1) }
    ensures written { IsWritten (option_map view query.now.0) query.now.1 }
{
    let mut line = Line {
        text: String::new(alloc),
        is_tight: true,
    };
    write_condition(alloc, &mut line, query)?;
    write_order(alloc, &mut line, query.order())?;
    let Line { text, is_tight: _ } = line;
    Ok(Text::of(text))
}

/// The one spelling of a query.
pub fn print(alloc: Global, query: &Query) -> Result<Text, Memory>
    ensures spelling { IfOk result (λ t. t ≡ query_text (option_map view query.now.0) query.now.1) }
    // It is that query, unless it is too long for one.
    ensures again { IfOk result (λ t. length t ≤ most_bytes
        → IsQuery t (option_map view query.now.0) query.now.1) }
{
    spelled(alloc, query)
}

/// The spelling of what a text says is that query again, unless it is too long for one.
pub fn printed_reads()
    ensures { (text : List ℕ) (q : Option Tree) (keys : List TheSortKey) → IsUtf8 text
        → IsQuery text q keys → length (query_text q keys) ≤ most_bytes
        → IsQuery (query_text q keys) q keys }
{}

/// What some text says, as each [`Query`] is, nests at most 64 deep in its spelling.
pub fn nesting_is_limited()
    ensures { (q : Option Tree) (keys : List TheSortKey) → IsWritten q keys → nesting q ≤ limit }
{}
