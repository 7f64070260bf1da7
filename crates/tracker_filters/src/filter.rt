//! One saved filter.
ghost use Rattle.tracker_filters.specs.Saved.{number};

use field_values::{FilterNo, Text, UserNo};
use jql_bound::Bound;
use rising_numbers::Numbered;

/// A saved filter. A user has no two of one name.
pub struct Filter {
    pub no: FilterNo,
    pub owner: UserNo,
    pub name: Text,
    /// As it was given.
    pub text: Text,
    /// What the text asks for when the owner asks it.
    pub query: Bound,
}

impl Numbered for Filter {
    ghost number = { number };

    fn number(&self) -> u32 {
        self.no.0
    }
}

// Written by hand, so that whoever lets one go makes one call, and its proof takes one step there.
impl Drop for Filter {
    fn drop(self) {
        let Filter {
            no: _,
            owner: _,
            name: _,
            text: _,
            query: _,
        } = self;
    }
}
