//! The external ids of a tracker's issues, found by id and listed by issue.
ghost use Rattle.std.specs.Prelude.{◌≡◌, ◌≤◌, ◌<◌, ◌+◌, ◌-◌, [], ℕ, List, None, Some, OnOk, OnErr, string_bytes, if◌then◌else◌};
ghost use Rattle.std.specs.List.{All};
ghost use Rattle.std.specs.Option.{option_map};
ghost use Rattle.std.specs.Str.{bytes_eq};
ghost use Rattle.std.specs.HashMap.{spare, get_by_text};
ghost use Rattle.rising_numbers.specs.ByNumber.{RiseFrom, put_by_number};
ghost use Rattle.external_ids.specs.Ids.{external_number, external_named, HaveOwnIds};

use crate::external_id::ExternalId;
use field_values::{IssueNo, Memory};
use std::alloc::Global;
use std::collections::HashMap;
use std::marker::Model;

/// The external ids of a tracker's issues: each issue has at most one, and no two have the same. Contracts see them by the issues'
/// numbers, with the room for more.
#[derive(Drop)]
pub struct ExternalIds {
    list: Vec<ExternalId>,
    by_id: HashMap<String, IssueNo>,
    room: usize,
}

impl Model for ExternalIds {
    ghost use Rattle.std.specs.Prelude.{vec_len, vec_capacity};
    ghost use Rattle.external_ids.specs.Ids.{IdList, AreExternalIds};

    ghost Value = { IdList };

    ghost view = { λ e. record { ids = e.list.items; room = e.room } };

    ghost invariant = { λ e.
        AreExternalIds e.list.items e.by_id e.room (vec_len e.list) (vec_capacity e.list) };
}

impl ExternalIds {
    /// No issue has one.
    pub fn new(alloc: Global) -> ExternalIds
        ensures { result.ids ≡ [] }
    {
        ExternalIds {
            list: Vec::new(alloc),
            by_id: HashMap::new(alloc),
            room: 0,
        }
    }

    /// All of them by the issues' numbers, lent.
    pub fn as_slice(&self) -> &[ExternalId]
        ensures { result.now ≡ self.now.ids }
    {
        self.list.as_slice()
    }

    /// Each issue has at most one, and no two have the same: contracts may cite it.
    pub fn are_own(&self)
        ensures rising { RiseFrom external_number 1 self.now.ids }
        ensures own { HaveOwnIds self.now.ids }
    {
        let _ = &self.list;
    }

    /// The issue of that id; `None` exactly where there is none.
    pub fn find(&self, id: &str) -> Option<IssueNo>
        ensures { result ≡ option_map (λ e. e.no) (external_named id.now self.now.ids) }
    {
        self.by_id.get(id).copied()
    }

    /// Makes room for one more, or leaves all as it is.
    pub fn reserve(&mut self) -> Result<(), Memory>
        ensures ids { self.new.ids ≡ self.old.ids }
        ensures room { OnOk result (1 ≤ self.new.room) }
        ensures err { OnErr result (self.new ≡ self.old) }
    {
        self.list.reserve(1)?;
        self.by_id.reserve(1)?;
        self.room = 1;
        Ok(())
    }

    /// Puts in the external id of an issue behind all that have one; its text is given too. It takes no memory and can't fail.
    pub fn add(&mut self, external: ExternalId, id: String)
        // Room was made, and the text is that of the id.
        requires room { 1 ≤ self.old.room }
        requires same { string_bytes id ≡ external.id }
        // No issue has the id yet, and the one that gets it comes behind all that have one.
        requires free { external_named external.id self.old.ids ≡ None }
        requires last { All (λ e. e.no.0 < external.no.0) self.old.ids }
        requires positive { 1 ≤ external.no.0 }
        // The id is found from now on, and there is room for one less.
        ensures ids { self.new.ids ≡ put_by_number external_number external self.old.ids }
        ensures room { self.new.room ≡ self.old.room - 1 }
    {
        index_id(&mut self.by_id, id, external.no);
        self.room -= 1;
        self.list.push_reserved(external);
    }
}

// Has the id lead to the issue.
fn index_id(by_id: &mut HashMap<String, IssueNo>, id: String, no: IssueNo)
    requires { 1 ≤ spare by_id.old }
    ensures found { (name : List ℕ) → get_by_text by_id.new name
        ≡ (if bytes_eq (string_bytes id) name then Some no else get_by_text by_id.old name) }
    ensures spare { spare by_id.old ≤ spare by_id.new + 1 }
{
    let Ok(_) = by_id.insert(id, no) else {
        unreachable!()
    };
}
