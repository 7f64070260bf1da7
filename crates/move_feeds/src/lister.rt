//! What tells which issues a filter lists.
ghost use Rattle.std.specs.Prelude.{◌≡◌, ◌<◌, ◌^◌, ℕ, List, Bool, slice_get, length, OnOk, IfSome};

use field_values::{FilterNo, Memory, UserNo};

/// What tells which issues a filter lists for a user.
pub trait Lister {
    /// Of each issue, by its number from 1, whether the filter of a number lists it for a user.
    ghost lists: { Self → ℕ → ℕ → List Bool };

    /// Puts that of each issue in place of what `room` contained, of which nothing is known where memory lacks.
    fn list(&self, user: UserNo, filter: FilterNo, room: &mut Vec<bool>) -> Result<(), Memory>
        ensures { OnOk result (room.new.items ≡ lists self.now user.0 filter.0) };

    /// That of the issue at a place.
    fn lists_at(&self, user: UserNo, filter: FilterNo, place: usize) -> bool
        ensures { IfSome (slice_get (lists self.now user.0 filter.0) place) (λ is. result ≡ is) };
}
