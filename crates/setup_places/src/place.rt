// Where a fault is, and what is told of it.
ghost use Rattle.std.specs.Prelude.{◌≡◌, ◌++◌, ◌∷◌, [], decimal, IfOk};
ghost use Rattle.setup_places.specs.Lacking.{table_name};
ghost use Rattle.setup_places.specs.Places.{place_line};

use field_values::{Memory, Text};
use setup_drafts::keys::KeySet;
use std::alloc::Global;

/// Where a fault is to be looked for.
#[derive(Clone, Copy)]
pub enum Place {
    /// The line of this number, from 1, at which the text stops being TOML.
    Line(usize),
    /// The table of this number, from 1, among those of its kind: it lacks a key.
    Table(KeySet, usize),
}

/// The key of the top table under which the tables of a kind stand.
pub(crate) fn table_name(set: KeySet) -> &'static str
    ensures { result.now ≡ table_name set }
{
    match set {
        KeySet::Top => "",
        KeySet::Group => "group",
        KeySet::Project => "project",
        KeySet::Status => "status",
        KeySet::Transition => "transition",
        KeySet::Field => "field",
        KeySet::Offset => "offset",
    }
}

/// What is told of a place, with its line feed.
pub(crate) fn place_line(alloc: Global, place: Place) -> Result<Text, Memory>
    ensures { IfOk result (λ text. text ≡ place_line place) }
{
    match place {
        Place::Line(number) => Ok(Text::of(format!(in alloc; "line {number}\n")?)),
        Place::Table(set, number) => table_line(alloc, table_name(set), number),
    }
}

fn table_line(alloc: Global, name: &str, number: usize) -> Result<Text, Memory>
    ensures { IfOk result (λ text. text ≡ name.now ++ (32 ∷ decimal number) ++ 10 ∷ []) }
{
    Ok(Text::of(format!(in alloc; "{name} {number}\n")?))
}
