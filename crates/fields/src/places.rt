// The names that a value of a field may name, found by halving.
ghost use Rattle.std.specs.Prelude.{◌≡◌, ◌==◌, ◌<◌, ◌≤◌, [], length, position, option_map, slice_get};
ghost use Rattle.std.specs.Option.{IfSome, option_map_or};
ghost use Rattle.field_forms.specs.Names.{place_named, is_among};
ghost use Rattle.field_forms.specs.Known.{own_field, own_choices, choices_of};
ghost use Rattle.fields.specs.SetupParts.{names, choice_named};

use crate::setup::Setup;
use field_forms::form::Form;
use field_forms::known::form_of;
use field_values::field::Field;
use field_values::numbers::{ChoiceNo, FieldNo};
use field_values::words::FieldKind;
use name_index::IndexedNames;

// The place of the field of that number among the setup's own.
fn own_place(fields: &[Field], no: FieldNo) -> Option<usize>
    ensures { result ≡ position (λ f. f.number.0 == no.0) fields.now }
{
    fields.iter().position(|field| field.number.0 == no.0)
}

impl Setup {
    /// The choice of that name in the field, ASCII case ignored; `None` exactly where there is none.
    pub fn choice_named(&self, field: FieldNo, name: &str) -> Option<ChoiceNo>
        ensures { option_map (λ no. no.0) result ≡ choice_named (names self.now) field.0 name.now }
    {
        match form_of(self.field.as_slice(), field)? {
            Form::Choice | Form::Set => {
                let place = self.place_among(field, name)?;
                Some(ChoiceNo(place as u16))
            }
            _ => None,
        }
    }

    /// The place of the first of that name among those that a value of the field may name.
    #[tactic(auto, using(crate::proofs::Found::place_below), unfolding(field_forms::specs::Known::choices_of))]
    pub(crate) fn place_among(&self, field: FieldNo, name: &str) -> Option<usize>
        ensures place { result ≡ place_named name.now (choices_of (names self.now) field.0) }
        ensures few { IfSome result (λ place. place < 500) }
    {
        match field {
            FieldNo::TYPE => self.types.place_of(name),
            FieldNo::STATUS => self.table_names.statuses.place_of(name),
            FieldNo::ASSIGNEE | FieldNo::REPORTER => self.users.place_of(name),
            FieldNo::PRIORITY => self.priorities.place_of(name),
            FieldNo::RESOLUTION => self.resolutions.place_of(name),
            FieldNo::FIX_VERSION => self.versions.place_of(name),
            _ => self.place_among_own(field, name),
        }
    }

    /// The same of a field of the setup's own.
    #[tactic(auto, using(crate::proofs::Found::own_at))]
    fn place_among_own(&self, field: FieldNo, name: &str) -> Option<usize>
        ensures place { result ≡ place_named name.now
            (option_map_or (own_choices (names self.now)) (own_field self.now.field field.0) []) }
        ensures few { IfSome result (λ place. place < 500) }
    {
        match own_place(self.field.as_slice(), field) {
            Some(place) => self.place_at(place, name),
            None => None,
        }
    }

    /// The same of the field at a place among the setup's own.
    #[tactic(auto, using(crate::proofs::Found::options_at, crate::proofs::Found::few_at))]
    fn place_at(&self, place: usize, name: &str) -> Option<usize>
        ensures place { result ≡ place_named name.now
            (option_map_or (own_choices (names self.now)) (slice_get self.now.field place) []) }
        ensures few { IfSome result (λ place. place < 500) }
    {
        let own = self.field.as_slice().get(place)?;
        let options = self.table_names.options.as_slice().get(place)?;
        self.place_by(own, options, name)
    }

    /// The same of a field with these options.
    #[tactic(auto, using(crate::proofs::Found::place_below))]
    fn place_by(&self, own: &Field, options: &IndexedNames, name: &str) -> Option<usize>
        requires options { options.now ≡ own.now.options }
        requires few { length own.now.options ≤ 200 }
        ensures place { result ≡ place_named name.now (own_choices (names self.now) own.now) }
        ensures few { IfSome result (λ place. place < 500) }
    {
        match own.kind {
            FieldKind::User => self.users.place_of(name),
            FieldKind::Text | FieldKind::Number | FieldKind::Choice | FieldKind::Date => {
                options.place_of(name)
            }
        }
    }

    /// Whether a value of the field may name that.
    pub(crate) fn has_among(&self, field: FieldNo, name: &str) -> bool
        ensures { result ≡ is_among (choices_of (names self.now) field.0) name.now }
    {
        self.place_among(field, name).is_some()
    }
}
