ghost use Rattle.std.specs.Prelude.{◌≡◌, IfOk};
ghost use Rattle.field_forms.specs.Names.{place_named};

use crate::places::Places;
use field_values::memory::Memory;
use field_values::names::Names;
use field_values::text::Text;
use std::alloc::Global;
use std::marker::Model;

/// A list of names, each of which is found in logarithmic time. Contracts see it as the list.
pub struct IndexedNames {
    names: Names,
    places: Places,
}

// Written by hand, so that whoever lets one go makes one call, and its proof takes one step there.
impl Drop for IndexedNames {
    fn drop(self) {
        let IndexedNames {
            names: _,
            places: _,
        } = self;
    }
}

impl Model for IndexedNames {
    ghost use Rattle.std.specs.Prelude.{ℕ, List};
    ghost use Rattle.name_index.specs.Places.{IsIndex};

    ghost Value = { List (List ℕ) };

    ghost view = { λ n. n.names };

    ghost invariant = { λ n. IsIndex n.names n.places };
}

impl IndexedNames {
    /// The names, with an index of them.
    pub fn of(alloc: Global, names: Names) -> Result<Self, Memory>
        ensures { IfOk result (λ indexed. indexed ≡ names) }
    {
        let places = Places::of(alloc, names.as_slice())?;
        Ok(IndexedNames { names, places })
    }

    /// The names in order, lent.
    pub fn as_slice(&self) -> &[Text]
        ensures { result.now ≡ self.now }
    {
        self.names.as_slice()
    }

    /// The place of the first of that name, ASCII case ignored; `None` exactly where there is none.
    pub fn place_of(&self, name: &str) -> Option<usize>
        ensures { result ≡ place_named name.now self.now }
    {
        self.places.place_of(self.names.as_slice(), name)
    }
}
