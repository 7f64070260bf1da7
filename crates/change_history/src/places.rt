// Where the first and the last entry of each field stand. No value is copied, so that a change needs no memory for it. Of the fields
// that every tracker has this lies in the issue itself; the others have places in a list, where entries changed them. Entries go by
// their numbers, counted from 1, so that 0 says that there is none.
ghost use Rattle.std.specs.Prelude.{◌≡◌, ◌+◌, ◌<◌, ◌≤◌, length, vec_len, vec_capacity, IfSome, slice_get};
ghost use Rattle.change_history.specs.Places.{number_of, set_place, index_of, place_in};
ghost use Rattle.change_history.specs.Places.{widened, first_in, last_in, set_spot, Spots};

use crate::small::PLACES;
use field_values::FieldNo;

/// The numbers of a field's first and last entry; 0 where it has none.
#[derive(Clone, Copy)]
pub(crate) struct Bounds {
    pub first: u32,
    pub last: u32,
}

/// The number of a field's last entry.
#[derive(Clone, Copy)]
pub(crate) struct Place {
    pub field: FieldNo,
    pub last: u32,
}

/// Where there is no entry yet.
pub(crate) const NO_BOUNDS: [Bounds; PLACES] = [Bounds { first: 0, last: 0 }; PLACES];

/// The place of the entry of that number; `None` for 0.
pub(crate) fn place_in(number: u32) -> Option<usize>
    ensures { result ≡ place_in number }
{
    if number == 0 {
        return None;
    }
    Some(number as usize - 1)
}

/// The number of a field's first entry, where its bounds are kept; else 0.
pub(crate) fn first_number(bounds: &[Bounds], field: FieldNo) -> u32
    ensures { result ≡ first_in (slice_get bounds.now field.0) }
{
    match bounds.get(usize::from(field.0)) {
        Some(bounds) => bounds.first,
        None => 0,
    }
}

/// The number of a field's last entry; 0 where it has none.
pub(crate) fn last_number(bounds: &[Bounds], others: &[Place], field: FieldNo) -> u32
    ensures { result ≡ last_in (slice_get bounds.now field.0) others.now field }
{
    match bounds.get(usize::from(field.0)) {
        Some(bounds) => bounds.last,
        None => number_of(others, field),
    }
}

/// Has the field's last entry be that of this number, and its first one too where it has none yet. It takes no memory.
pub(crate) fn set_spot(bounds: &mut [Bounds], others: &mut Vec<Place>, field: FieldNo, number: u32)
    requires { vec_len others.old + 1 ≤ vec_capacity others.old }
    ensures spots { (record { bounds = bounds.new; others = others.new.items })
        ≡ set_spot (record { bounds = bounds.old; others = others.old.items }) field number }
    ensures len { vec_len others.new ≤ vec_len others.old + 1 }
    ensures capacity { vec_capacity others.old ≤ vec_capacity others.new }
{
    let place = usize::from(field.0);
    if place < bounds.len() {
        bounds[place] = widened(bounds[place], number);
    } else {
        set_place(others, field, number);
    }
}

// The bounds with one more entry of that number.
fn widened(bounds: Bounds, number: u32) -> Bounds
    ensures { result ≡ widened bounds number }
{
    if bounds.first == 0 {
        return Bounds {
            first: number,
            last: number,
        };
    }
    Bounds {
        first: bounds.first,
        last: number,
    }
}

// The number of a field's last entry by the list; 0 where it has none.
fn number_of(places: &[Place], field: FieldNo) -> u32
    ensures { result ≡ number_of places.now field }
{
    for place in places {
        if place.field.0 == field.0 {
            return place.last;
        }
    }
    0
}

// Sets the number of a field's last entry in the list.
fn set_place(places: &mut Vec<Place>, field: FieldNo, last: u32)
    requires { vec_len places.old + 1 ≤ vec_capacity places.old }
    ensures items { places.new.items ≡ set_place places.old.items field last }
    ensures len { vec_len places.new ≤ vec_len places.old + 1 }
    ensures capacity { vec_capacity places.old ≤ vec_capacity places.new }
{
    match index_of(places, field) {
        Some(index) => places[index] = Place { field, last },
        None => places.push_reserved(Place { field, last }),
    }
}

// Where the field's place is kept.
fn index_of(places: &[Place], field: FieldNo) -> Option<usize>
    ensures index { result ≡ index_of places.now field }
    ensures within { IfSome result (λ index. index < length places.now) }
{
    for (index, place) in places.iter().enumerate() {
        if place.field.0 == field.0 {
            return Some(index);
        }
    }
    None
}
