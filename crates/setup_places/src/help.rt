// The line that is told of a text that is no setup.
ghost use Rattle.std.specs.Prelude.{◌≡◌, ◌<◌, ◌^◌, Some, None, length, option_map, IfOk};
ghost use Rattle.std.specs.Str.{IsUtf8};
ghost use Rattle.toml.specs.Errors.{IsMemory, IsWithin};
ghost use Rattle.toml.specs.Parse.{parse_document};
ghost use Rattle.toml.specs.View.{table_view};
ghost use Rattle.setup_drafts.specs.Faults.{FaultOf};
ghost use Rattle.setup_reading.specs.Reading.{first_fault};
ghost use Rattle.setup_places.specs.Places.{place_of, IsHelp, IsNoToml, IsPlaceOf};

use crate::lacking::first_lacking;
use crate::line::line_at;
use crate::place::{Place, place_line};
use field_values::{Memory, Text};
use setup_drafts::SetupFault;
use setup_reading::reading::read_text;
use std::alloc::Global;
use std::str;
use toml::Table;
use toml::de::Error;

/// The line that says where the fault of a text that is no setup is to be looked for, where that is told.
pub fn help_on(alloc: Global, bytes: &[u8]) -> Result<Option<Text>, Memory>
    requires { length bytes.now < 2 ^ 32 }
    ensures { IfOk result (IsHelp bytes.now) }
{
    match place_of(alloc, bytes)? {
        Some(place) => Ok(Some(place_line(alloc, place)?)),
        None => Ok(None),
    }
}

// Where the fault of a text that is no setup is to be looked for.
fn place_of(alloc: Global, bytes: &[u8]) -> Result<Option<Place>, Memory>
    requires { length bytes.now < 2 ^ 32 }
    ensures { IfOk result (IsPlaceOf bytes.now) }
{
    match toml::table_from_slice(alloc, bytes) {
        Ok(table) => table_place(alloc, bytes, &table),
        Err(error) => bad_line(bytes, &error),
    }
}

// The line at which a text stops being TOML.
fn bad_line(bytes: &[u8], error: &Error) -> Result<Option<Place>, Memory>
    requires short { length bytes.now < 2 ^ 32 }
    requires refused { ¬ IsMemory error.now → IsNoToml bytes.now }
    requires span { IsWithin bytes.now error.now }
    ensures { IfOk result (IsPlaceOf bytes.now) }
{
    match error.span() {
        Some(span) => Ok(Some(Place::Line(line_at(bytes, span.start)))),
        None => Err(Memory),
    }
}

// The first table that lacks the key which is missing.
fn table_place(alloc: Global, bytes: &[u8], table: &Table) -> Result<Option<Place>, Memory>
    requires text { IsUtf8 bytes.now }
    requires reads { parse_document bytes.now ≡ Some (table_view table.now) }
    ensures { IfOk result (IsPlaceOf bytes.now) }
{
    let Some(fault) = fault_of(alloc, bytes, table) else {
        return Ok(None);
    };
    match &fault {
        SetupFault::Memory => Err(Memory),
        SetupFault::Missing(key) => Ok(first_lacking(key.as_str(), table)),
        SetupFault::BadToml
        | SetupFault::Duplicate(_)
        | SetupFault::Unknown(_)
        | SetupFault::TooMany(_, _)
        | SetupFault::BadValue(_) => Ok(None),
    }
}

// The first fault of a text that is TOML.
#[tactic(auto, using(crate::proofs::Faults::read_fault))]
fn fault_of(alloc: Global, bytes: &[u8], table: &Table) -> Option<SetupFault>
    requires text { IsUtf8 bytes.now }
    requires reads { parse_document bytes.now ≡ Some (table_view table.now) }
    ensures { FaultOf (first_fault (table_view table.now)) result }
{
    let _table = table;
    let Ok(text) = str::from_utf8(bytes) else {
        unreachable!()
    };
    match read_text(alloc, text) {
        Ok(_) => None,
        Err(fault) => Some(fault),
    }
}
