// What issues are sorted by.
ghost use Rattle.std.specs.Prelude.{◌≡◌, IfOk, IfErr};
ghost use Rattle.jql_grammar.specs.Steps.{Stops};
ghost use Rattle.jql_grammar.specs.Sorting.{is_sortable, direction_of, key_in, keys_in};
ghost use Rattle.jql_grammar.specs.Binding.{Tells};

use crate::conditions::fault_at;
use crate::fault::{BindFault, FaultKind, Stop};
use crate::field_name::field_in;
use crate::scope::Binder;
use fields::{FieldNo, Sequence, Setup};
use jql_bound::{Direction, OrderKey, SortField, Subject};
use jql_syntax::{Direction as Way, SortKey};

fn is_sortable(field: SortField) -> bool
    ensures { result ≡ is_sortable field }
{
    match field {
        SortField::Subject(Subject::Field(no)) => {
            no.0 != FieldNo::FIX_VERSION.0 && no.0 != FieldNo::LABELS.0
        }
        _ => true,
    }
}

fn direction_of(way: Way) -> Direction
    ensures { result ≡ direction_of way }
{
    match way {
        Way::Ascending => Direction::Ascending,
        Way::Descending => Direction::Descending,
    }
}

fn key_in(setup: &Setup, key: &SortKey) -> Result<OrderKey, Stop>
    ensures ok { IfOk result (λ x. key_in setup.now.field key.now ≡ Ok x) }
    ensures err { IfErr result (Stops (key_in setup.now.field key.now)) }
{
    let Some(field) = field_in(setup, &key.field) else {
        return Err(Stop::At(FaultKind::UnknownField));
    };
    if is_sortable(field) {
        Ok(OrderKey {
            field,
            direction: direction_of(key.direction),
        })
    } else {
        Err(Stop::At(FaultKind::OperatorNotForField))
    }
}

/// The sort keys, of which the first has that number.
pub(crate) fn bind_keys(
    binder: &Binder<'_>,
    place: usize,
    keys: &[SortKey],
) -> Result<Sequence<OrderKey>, BindFault>
    ensures ok { IfOk result (λ xs. keys_in binder.now.setup.now.field place keys.now ≡ Ok xs) }
    ensures err { IfErr result (Tells (keys_in binder.now.setup.now.field place keys.now)) }
{
    let mut bound = Sequence::new(binder.alloc);
    let mut next = place;
    for key in keys {
        match key_in(binder.setup, key) {
            Ok(key) => bound.push(key)?,
            Err(stop) => return Err(fault_at(next, stop)),
        }
        let Some(after) = next.checked_add(1) else {
            return Err(BindFault::Memory);
        };
        next = after;
    }
    Ok(bound)
}
