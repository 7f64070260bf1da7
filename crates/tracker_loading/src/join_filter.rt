//! A filter that is read.
ghost use Rattle.std.specs.Prelude.{◌≡◌, ◌≤◌, ◌<◌, true, false, None, Some, Ok, is_some, length, vec_len, vec_capacity, IfOk};
ghost use Rattle.rising_numbers.specs.ByNumber.{RiseFrom, by_number, put_by_number};
ghost use Rattle.tracker_filters.specs.Saved.{number, is_named, by_owner};
ghost use Rattle.tracker_machine.specs.Effect.{with_filter};
ghost use Rattle.tracker_machine.specs.Saved.{filter_number};
ghost use Rattle.tracker_rows.specs.Rules.{MayBeFilter};

use crate::asking::asked;
use crate::making::Making;
use field_values::{FilterNo, Memory, Text, UserNo};
use rising_numbers::put_in;
use std::alloc::Global;
use tracker_filters::Filter;
use tracker_limits::MOST_FILTERS;

impl Making {
    /// Adds a filter whose number is free, or answers false exactly where it breaks a rule.
    pub(crate) fn join_filter(
        &mut self,
        alloc: Global,
        no: FilterNo,
        owner: UserNo,
        name: Text,
        text: Text,
    ) -> Result<bool, Memory>
        requires positive { 1 ≤ no.0 }
        requires free { by_number filter_number no.0 self.old.filters ≡ None }
        ensures good { IfOk result (λ good. good ≡ true →
            MayBeFilter self.old (record { no = no; owner = owner; name = name; text = text })
            × (self.new ≡ with_filter self.old
            (record { no = no; owner = owner; name = name; text = text }))) }
        ensures bad { IfOk result (λ good. good ≡ false → ¬ (MayBeFilter self.old
            (record { no = no; owner = owner; name = name; text = text }))) }
    {
        if self.filters.len() >= MOST_FILTERS {
            return Ok(false);
        }
        if has_named(&self.filters, owner, name.as_str()) {
            return Ok(false);
        }
        let Some(query) = asked(alloc, &self.setup, owner, text.as_str())? else {
            return Ok(false);
        };
        self.filters.reserve(1)?;
        let filter = Filter {
            no,
            owner,
            name,
            text,
            query,
        };
        put_in(&mut self.filters, filter);
        Ok(true)
    }
}

// Whether the user has a filter of that name.
fn has_named(filters: &[Filter], owner: UserNo, name: &str) -> bool
    ensures { result ≡ is_some (by_owner owner name.now filters.now) }
{
    for filter in filters {
        if is_named(filter, owner, name) {
            return true;
        }
    }
    false
}

// Whether the filter is the user's, by that name.
fn is_named(filter: &Filter, owner: UserNo, name: &str) -> bool
    ensures { result ≡ is_named owner name.now filter.now }
{
    filter.owner.0 == owner.0 && filter.name.as_str() == name
}
