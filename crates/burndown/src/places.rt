//! Where a sprint stands among the totals.
ghost use Rattle.std.specs.Prelude.{◌<◌, ◌≤◌, ◌≡◌, IfOk, IfErr, vec_len, vec_capacity};
ghost use Rattle.std.specs.List.{insert};
ghost use Rattle.burndown.specs.Burndown.{IsRising, IsAt, IsGapFor};

use field_values::SprintNo;

/// The sprint's place, or the place where it would go.
pub(crate) fn place_of(totals: &[(SprintNo, i64)], sprint: SprintNo) -> Result<usize, usize>
    requires { IsRising totals.now }
    ensures found { IfOk result (IsAt totals.now sprint.0) }
    ensures absent { IfErr result (IsGapFor totals.now sprint.0) }
{
    totals.binary_search_by_key(&sprint.0, |&(own, _)| own.0)
}

/// Puts an item to its place, where there is room for it.
pub(crate) fn insert_reserved<T: Drop>(items: &mut Vec<T>, place: usize, item: T)
    requires place { place ≤ vec_len items.old }
    requires room { vec_len items.old < vec_capacity items.old }
    ensures { items.new.items ≡ insert items.old.items place item }
{
    items.insert(place, item).unwrap();
}
