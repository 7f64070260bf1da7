// Lists of which two things lie in the list itself, and more apart. Values are worked out by hand.
use field_values::Memory;
use short_lists::ShortList;
use short_lists::by_name::put_by_name;
use std::alloc::Global;

/// Puts a number at a place, or at the end where there is no such place.
fn put_at(list: &mut ShortList<u32, 2>, place: usize, number: u32) -> Result<(), Memory> {
    if place >= list.as_slice().len() {
        return list.push(number);
    }
    list.insert(place, number)
}

/// Numbers that are put at places.
fn numbers(alloc: Global, puts: &[(usize, u32)]) -> Option<ShortList<u32, 2>> {
    let mut list = ShortList::new(alloc);
    for put in puts {
        put_at(&mut list, put.0, put.1).ok()?;
    }
    if list.as_slice().len() > 2 {
        list.set(1, 9);
    }
    Some(list)
}

/// Numbers that are put by names.
fn named<'a>(
    alloc: Global,
    puts: &[(&'a str, u32)],
) -> Result<ShortList<(&'a str, u32), 2>, Memory> {
    let mut list = ShortList::new(alloc);
    for put in puts {
        put_by_name(&mut list, put.0, put.1)?;
    }
    Ok(list)
}

fn are(list: &[(&str, u32)], rows: &[(&str, u32)]) -> bool {
    if list.len() != rows.len() {
        return false;
    }
    for place in 0..rows.len() {
        if list[place].0 != rows[place].0 || list[place].1 != rows[place].1 {
            return false;
        }
    }
    true
}

fn are_numbers(list: Option<ShortList<u32, 2>>, numbers: &[u32]) -> bool {
    match list {
        Some(list) => list.as_slice() == numbers,
        None => false,
    }
}

#[test]
fn more_things_lie_apart(rt: HostRuntime) {
    let few = numbers(rt.alloc(), &[(0, 2), (0, 1)]);
    let more = numbers(rt.alloc(), &[(0, 2), (0, 1), (1, 5), (7, 8), (0, 3)]);
    let passes = are_numbers(few, &[1, 2]) && are_numbers(more, &[3, 9, 5, 2, 8]);
    assert!(rt; passes);
}

#[test]
fn values_stand_by_their_names(rt: HostRuntime) {
    let puts = [("due", 1), ("an", 2), ("due", 3), ("zoo", 4), ("be", 5)];
    let rows = [("an", 2), ("be", 5), ("due", 3), ("zoo", 4)];
    let passes = match named(rt.alloc(), &puts) {
        Ok(list) => are(list.as_slice(), &rows),
        Err(_) => false,
    };
    assert!(rt; passes);
}
