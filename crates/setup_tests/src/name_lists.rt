use field_values::memory::Memory;
use field_values::names::Names;
use field_values::text::Text;
use name_index::{IndexedNames, Places};
use std::alloc::Global;

const NAMES: [&str; 13] = [
    "bo", "Anna", "cy", "ANNA", "b", "Boa", "", "a", "zed", "Bo", "É", "é", "_x",
];

/// A name, and its place by hand. `None` where no name is the same.
const LOOK_UPS: [(&str, Option<usize>); 16] = [
    ("bo", Some(0)),
    ("BO", Some(0)),
    ("anna", Some(1)),
    ("aNNa", Some(1)),
    ("cy", Some(2)),
    ("B", Some(4)),
    ("boa", Some(5)),
    ("", Some(6)),
    ("A", Some(7)),
    ("ZED", Some(8)),
    ("É", Some(10)),
    ("é", Some(11)),
    ("_X", Some(12)),
    ("bob", None),
    ("ann", None),
    ("zee", None),
];

fn names(alloc: Global) -> Result<Names, Memory> {
    let mut names = Names::new(alloc);
    for name in &NAMES {
        names.push(Text::copy_of(alloc, name)?)?;
    }
    Ok(names)
}

fn are_found(names: &IndexedNames) -> bool {
    for &(name, wanted) in &LOOK_UPS {
        if names.place_of(name) != wanted {
            return false;
        }
    }
    true
}

fn are_all_found(alloc: Global) -> Option<bool> {
    let names = names(alloc).ok()?;
    let names = IndexedNames::of(alloc, names).ok()?;
    Some(are_found(&names))
}

#[test]
fn names_are_found_by_halving(rt: HostRuntime) {
    let passes = are_all_found(rt.alloc()) == Some(true);
    assert!(rt; passes);
}

fn has_no_name(alloc: Global) -> Option<bool> {
    let places = Places::of(alloc, &[]).ok()?;
    Some(!places.has(&[], ""))
}

#[test]
fn a_list_without_names_has_none(rt: HostRuntime) {
    let passes = has_no_name(rt.alloc()) == Some(true);
    assert!(rt; passes);
}
