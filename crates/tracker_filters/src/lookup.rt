//! Filters by their owners and names.
ghost use Rattle.std.specs.Prelude.{◌≡◌};
ghost use Rattle.std.specs.Option.{option_copied};
ghost use Rattle.tracker_filters.specs.Saved.{by_owner, is_named};

use crate::filter::Filter;
use field_values::UserNo;

/// The user's filter of that name.
pub(crate) fn find_named<'a>(filters: &'a [Filter], owner: UserNo, name: &str) -> Option<&'a Filter>
    ensures { option_copied result ≡ by_owner owner name.now filters.now }
{
    for filter in filters {
        if is_named(filter, owner, name) {
            return Some(filter);
        }
    }
    None
}

// Whether the filter is the user's, by that name.
fn is_named(filter: &Filter, owner: UserNo, name: &str) -> bool
    ensures { result ≡ is_named owner name.now filter.now }
{
    filter.owner.0 == owner.0 && filter.name.as_str() == name
}
