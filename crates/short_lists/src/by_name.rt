// Values by lent names, which stand in a list in the order of the names. For the dozen fields of an issue that costs less than a
// tree. The list is walked from the front, since most names are told apart by their first byte.
ghost use Rattle.std.specs.Prelude.{◌≡◌, ◌<◌, length, IsOk, OnOk};
ghost use Rattle.std.specs.BTreeMap.{insert_entry};
ghost use Rattle.short_lists.specs.ByName.{name_cmp, IsPlaceOf};

use crate::short_list::ShortList;
use field_values::Memory;
use short_texts::order_of;
use std::cmp::Ordering;

// Where the name stands, or else where it belongs.
fn place_of<'a, T>(list: &[(&'a str, T)], name: &str) -> Result<usize, usize>
    ensures { IsPlaceOf name.now list.now result }
{
    for (at, entry) in list.iter().enumerate() {
        match order_of(name, entry.0) {
            Ordering::Less => return Err(at),
            Ordering::Equal => return Ok(at),
            Ordering::Greater => {}
        }
    }
    Err(list.len())
}

/// Puts a value where its name belongs, or in the place of the one of the same name.
pub fn put_by_name<'a, T: Copy, const N: usize>(
    list: &mut ShortList<(&'a str, T), N>,
    name: &'a str,
    value: T,
) -> Result<(), Memory>
    ensures ok { OnOk result (list.new ≡ insert_entry name_cmp list.old name.entry value) }
    ensures few { length list.old < N → IsOk result }
{
    match place_of(list.as_slice(), name) {
        Ok(at) => {
            let stands = list.as_slice()[at].0;
            list.set(at, (stands, value));
            Ok(())
        }
        Err(at) => list.insert(at, (name, value)),
    }
}
