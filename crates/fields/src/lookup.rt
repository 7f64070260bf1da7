// What the setup says by name.
ghost use Rattle.std.specs.Prelude.{◌≡◌, ◌+◌, map, option_map, slice_get};
ghost use Rattle.field_forms.specs.Names.{place_named};
ghost use Rattle.field_forms.specs.Known.{names_of, AreFew, own_field_named, field_named};
ghost use Rattle.fields.specs.SetupParts.{names};

use crate::setup::Setup;
use field_forms::built_in::built_in_no;
use field_forms::known::Known;
use field_values::field::Field;
use field_values::numbers::{FieldNo, GroupNo, ProjectNo, UserNo};

fn field_at(fields: &[Field], place: usize) -> Option<&Field>
    ensures { option_map (λ f. f.now) result ≡ slice_get fields.now place }
{
    fields.get(place)
}

impl Setup {
    /// The lists of names, lent.
    pub(crate) fn known(&self) -> Known<'_>
        ensures names { names_of result ≡ names self.now }
        ensures few { AreFew (names_of result) }
    {
        Known {
            users: self.users.as_slice(),
            types: self.types.as_slice(),
            statuses: self.table_names.statuses.as_slice(),
            priorities: self.priorities.as_slice(),
            resolutions: self.resolutions.as_slice(),
            versions: self.versions.as_slice(),
            groups: self.table_names.groups.as_slice(),
            fields: self.field.as_slice(),
        }
    }

    /// The user of that name, ASCII case ignored; `None` exactly where there is none.
    pub fn user_named(&self, name: &str) -> Option<UserNo>
        ensures { option_map (λ no. no.0) result ≡ place_named name.now self.now.users }
    {
        let place = self.users.place_of(name)?;
        Some(UserNo(place as u16))
    }

    /// The project of that key, ASCII case ignored; `None` exactly where there is none.
    pub fn project_named(&self, name: &str) -> Option<ProjectNo>
        ensures { option_map (λ no. no.0) result
            ≡ place_named name.now (map (λ p. p.key) self.now.project) }
    {
        let place = self.table_names.projects.place_of(name)?;
        Some(ProjectNo(place as u16))
    }

    /// The place of the transition of that name, ASCII case ignored; `None` exactly where there is none.
    pub fn transition_named(&self, name: &str) -> Option<usize>
        ensures { result ≡ place_named name.now (map (λ t. t.name) self.now.transition) }
    {
        self.table_names.transitions.place_of(name)
    }

    /// The group of that name, ASCII case ignored; `None` exactly where there is none. Groups count from 1.
    pub fn group_named(&self, name: &str) -> Option<GroupNo>
        ensures { option_map (λ no. no.0) result
            ≡ option_map (λ place. place + 1)
            (place_named name.now (map (λ g. g.name) self.now.group)) }
    {
        let place = self.table_names.groups.place_of(name)?;
        Some(GroupNo(place as u16 + 1))
    }

    /// The field of that name, ASCII case ignored; `None` exactly where there is none.
    #[tactic(auto, unfolding(field_forms::specs::Known::field_named))]
    pub fn field_named(&self, name: &str) -> Option<FieldNo>
        ensures { option_map (λ no. no.0) result ≡ field_named self.now.field name.now }
    {
        if let Some(no) = built_in_no(name) {
            return Some(FieldNo(no));
        }
        match self.own_field_named(name) {
            Some(field) => Some(field.number),
            None => None,
        }
    }

    /// The field of the setup's own of that name.
    #[tactic(auto, using(crate::proofs::Found::named_at))]
    fn own_field_named(&self, name: &str) -> Option<&Field>
        ensures { option_map (λ f. f.now) result ≡ own_field_named self.now.field name.now }
    {
        match self.table_names.fields.place_of(name) {
            Some(place) => field_at(self.field.as_slice(), place),
            None => None,
        }
    }
}
