// What a call gives for fields, with each name looked up once.
ghost use Rattle.std.specs.Prelude.{◌≡◌, ◌==◌, map, option_map, IfOk, None, false, IsTrue};
ghost use Rattle.std.specs.Option.{option_map_or};
ghost use Rattle.fields.specs.SetupParts.{parts};
ghost use Rattle.tracker_machine.specs.Wanted.{given_for};
ghost use Rattle.wanted_values.specs.Resolved.{named_in, resolved, is_of, last_given};

use fields::{FieldNo, Memory, Setup};
use short_lists::ShortList;
use std::alloc::Global;
use std::marker::Model;
use tracker_calls::{Given, GivenField};

// Nearly all calls give no more.
const FEW: usize = 8;

/// A name in `set`, its field, if it is a field's, and what is given by it.
#[derive(Clone, Copy)]
pub struct ResolvedName<'a> {
    pub name: &'a str,
    pub field: Option<FieldNo>,
    pub given: &'a Given,
}

/// What `set` gives for fields. Each of its names is looked up once; what is given for a field is then found by its number
/// among them. Contracts see `set`, and the setup by which its names are read.
#[derive(Drop)]
pub struct ResolvedSet<'a> {
    setup: &'a Setup,
    set: &'a [GivenField],
    names: ShortList<ResolvedName<'a>, FEW>,
}

impl<'a> Model for ResolvedSet<'a> {
    ghost use Rattle.fields.specs.SetupParts.{parts};
    ghost use Rattle.wanted_values.specs.Resolved.{GivenSet, IsResolved};

    ghost Value = { GivenSet };

    ghost view = { λ s. record { setup = parts s.setup.now; set = s.set.now } };

    ghost invariant = { λ s. IsResolved s.setup.now.field s.set.now s.names };
}

impl<'a> ResolvedSet<'a> {
    /// What `set` gives, by this setup.
    pub fn of(alloc: Global, setup: &'a Setup, set: &'a [GivenField]) -> Result<Self, Memory>
        ensures setup { IfOk result (λ given. given.setup ≡ parts setup.now) }
        ensures set { IfOk result (λ given. given.set ≡ set.now) }
    {
        let mut names = ShortList::new(alloc);
        for given in set {
            let name = given.name.as_str();
            names.push(ResolvedName {
                name,
                field: setup.field_named(name),
                given: &given.given,
            })?;
        }
        Ok(ResolvedSet { setup, set, names })
    }

    /// The setup by which the names are read.
    pub fn setup(&self) -> &'a Setup
        ensures { parts result.now ≡ self.now.setup }
    {
        self.setup
    }

    /// The names in their order, each with its field.
    pub fn names(&self) -> &[ResolvedName<'a>]
        ensures { map resolved result.now ≡ map (named_in self.now.setup.field) self.now.set }
    {
        self.names.as_slice()
    }

    /// What is given for a field: the last of its names counts.
    #[tactic(auto, using(crate::proofs::Resolving::last_given_is))]
    pub fn given_for(&self, field: FieldNo) -> Option<&'a Given>
        ensures { option_map (λ g. g.now) result
            ≡ given_for self.now.setup.field field.0 self.now.set }
    {
        last_given(self.names.as_slice(), field)
    }
}

fn is_of(name: ResolvedName<'_>, field: FieldNo) -> bool
    ensures { result ≡ is_of field.0 name.entry }
{
    match name.field {
        Some(own) => own.0 == field.0,
        None => false,
    }
}

// What is given by the last of the names that is the field's.
fn last_given<'a>(names: &[ResolvedName<'a>], field: FieldNo) -> Option<&'a Given>
    ensures { option_map (λ g. g.now) result ≡ last_given field.0 None names.now }
{
    let mut found = None;
    for name in names {
        if is_of(*name, field) {
            found = Some(name.given);
        }
    }
    found
}
