// The lists of names of a setup, with their indexes.
ghost use Rattle.std.specs.Prelude.{◌≡◌, IfOk};

use field_values::memory::Memory;
use name_index::IndexedNames;
use setup_drafts::draft::lists::Lists;
use std::alloc::Global;

/// The setup's lists of names.
#[derive(Drop)]
pub(crate) struct IndexedLists {
    pub(crate) users: IndexedNames,
    pub(crate) types: IndexedNames,
    pub(crate) priorities: IndexedNames,
    pub(crate) resolutions: IndexedNames,
    pub(crate) versions: IndexedNames,
}

impl IndexedLists {
    pub(crate) fn of(alloc: Global, lists: Lists) -> Result<IndexedLists, Memory>
        ensures users { IfOk result (λ indexed. indexed.users ≡ lists.users) }
        ensures types { IfOk result (λ indexed. indexed.types ≡ lists.types) }
        ensures priorities { IfOk result (λ indexed. indexed.priorities ≡ lists.priorities) }
        ensures resolutions { IfOk result (λ indexed. indexed.resolutions ≡ lists.resolutions) }
        ensures versions { IfOk result (λ indexed. indexed.versions ≡ lists.versions) }
    {
        let (users, types, priorities, resolutions, versions) = lists.into_names();
        Ok(IndexedLists {
            users: IndexedNames::of(alloc, users)?,
            types: IndexedNames::of(alloc, types)?,
            priorities: IndexedNames::of(alloc, priorities)?,
            resolutions: IndexedNames::of(alloc, resolutions)?,
            versions: IndexedNames::of(alloc, versions)?,
        })
    }
}
