// What a call gives for fields.
ghost use Rattle.std.specs.Prelude.{◌≡◌, ◌∷◌, ◌++◌, ℕ, List, [], Some, option_map};
ghost use Rattle.std.specs.Prelude.{IfOk, OnOk, OnErr, if◌then◌else◌};
ghost use Rattle.std.specs.List.{list_any};
ghost use Rattle.std.specs.Str.{str_eq_ignore_ascii_case};
ghost use Rattle.tracker_calls.specs.Given.{is_twin, has_twins};
ghost use Rattle.tracker_calls.specs.Seen.{seen_by, is_other};

use crate::told_text::ToldText;
use field_values::{Memory, Names};
use std::alloc::Global;
use std::collections::BTreeMap;
use std::marker::Model;

// So many names are compared each with each.
const FEW: usize = 8;

/// A value as JSON gives it.
#[derive(Drop)]
pub enum Given {
    Null,
    Text(ToldText),
    /// An array that has texts alone.
    List(Names),
    /// A whole number without a sign.
    Number(u64),
    /// Anything else, which no field takes.
    Other,
}

/// A field by its name, and what is given for it.
#[derive(Drop)]
pub struct GivenField {
    pub name: ToldText,
    pub given: Given,
}

/// What a call gives for fields, in byte order of the names where a line gives it. Contracts see it as a list.
#[derive(Drop)]
pub struct GivenFields {
    list: Vec<GivenField>,
}

impl Model for GivenFields {
    ghost use Rattle.std.specs.Prelude.{List};
    ghost use Rattle.tracker_calls.specs.declared.given.GivenField.{GivenField};

    ghost Value = { List GivenField };

    ghost view = { λ f. f.list.items };
}

impl GivenFields {
    /// Nothing is given.
    pub fn new(alloc: Global) -> Self
        ensures { result ≡ [] }
    {
        GivenFields {
            list: Vec::new(alloc),
        }
    }

    /// The same with room for so many.
    pub fn with_room(alloc: Global, room: usize) -> Result<Self, Memory>
        ensures { IfOk result (λ fields. fields ≡ []) }
    {
        Ok(GivenFields {
            list: Vec::with_capacity(alloc, room)?,
        })
    }

    /// Puts one more at the end, or leaves all as it is.
    pub fn push(&mut self, field: GivenField) -> Result<(), Memory>
        ensures ok { OnOk result (self.new ≡ self.old ++ field ∷ []) }
        ensures err { OnErr result (self.new ≡ self.old) }
    {
        self.list.push(field)?;
        Ok(())
    }

    /// The fields in order, lent.
    pub fn as_slice(&self) -> &[GivenField]
        ensures { result.now ≡ self.now }
    {
        self.list.as_slice()
    }
}

// Puts a name among those that were seen, by its small letters. The one of the same letters that it takes the place of.
fn put_seen<'a>(
    alloc: Global,
    seen: &mut BTreeMap<String, &'a str>,
    name: &'a str,
) -> Result<Option<&'a str>, Memory>
    ensures before { IfOk result (λ before. option_map (λ n. n.now) before
        ≡ seen_by seen.old name.now) }
    ensures seen { OnOk result ((other : List ℕ) → seen_by seen.new other
        ≡ (if str_eq_ignore_ascii_case name.now other then Some name.now
        else seen_by seen.old other)) }
{
    let letters = name.to_ascii_lowercase(alloc)?;
    Ok(seen.insert(letters, name)?)
}

// Whether there is one, and it isn't the name.
fn is_other(before: Option<&str>, name: &str) -> bool
    ensures { result ≡ is_other (option_map (λ n. n.now) before.entry) name.now }
{
    match before {
        Some(before) => name != before,
        None => false,
    }
}

/// Whether two of the names differ in the case of ASCII letters alone. It takes no memory where there are few of them, and
/// logarithmic time a name.
pub fn has_twins(alloc: Global, fields: &[GivenField]) -> Result<bool, Memory>
    ensures { IfOk result (λ has. has ≡ has_twins fields.now) }
{
    if fields.len() <= FEW {
        return Ok(few_have_twins(fields));
    }
    many_have_twins(alloc, fields)
}

// Whether the names differ in the case of ASCII letters alone.
fn is_twin(name: &str, other: &str) -> bool
    ensures { result ≡ is_twin name.now other.now }
{
    name.eq_ignore_ascii_case(other) && name != other
}

// Whether one of the names is a twin of this one.
fn has_twin(name: &str, fields: &[GivenField]) -> bool
    ensures { result ≡ list_any (λ other. is_twin name.now other.name) fields.now }
{
    fields
        .iter()
        .any(|other| is_twin(name, other.name.as_str()))
}

// Each name is compared with each behind it.
fn few_have_twins(fields: &[GivenField]) -> bool
    ensures { result ≡ has_twins fields.now }
{
    for place in 0..fields.len() {
        let (done, later) = fields.split_at(place + 1);
        if has_twin(done[place].name.as_str(), later) {
            return true;
        }
    }
    false
}

// Each name is looked for among those behind it by its small letters.
fn many_have_twins(alloc: Global, fields: &[GivenField]) -> Result<bool, Memory>
    ensures { IfOk result (λ has. has ≡ has_twins fields.now) }
{
    let mut seen = BTreeMap::new(alloc);
    for place in (0..fields.len()).rev() {
        let name = fields[place].name.as_str();
        let before = put_seen(alloc, &mut seen, name)?;
        if is_other(before, name) {
            return Ok(true);
        }
    }
    Ok(false)
}
