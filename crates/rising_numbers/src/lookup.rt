//! Things in the order of their numbers.
ghost use Rattle.std.specs.Prelude.{◌≡◌, ◌≢◌, ◌≤◌, ◌<◌, ◌^◌, None, insert, IfOk, IfErr, MatchBool, length, vec_len, vec_capacity};
ghost use Rattle.std.specs.Option.{option_copied};
ghost use Rattle.rising_numbers.specs.ByNumber.{RiseFrom, by_number, put_by_number, without_number, free_from};
ghost use Rattle.rising_numbers.specs.Places.{StandsAt, IsGapFor};

use crate::numbered::Numbered;

/// The place of the thing of that number, or the place where it would go.
fn place_of<T: Numbered>(things: &[T], no: u32) -> Result<usize, usize>
    requires { RiseFrom T.number 1 things.now }
    ensures there { IfOk result (StandsAt T.number things.now no) }
    ensures absent { IfErr result (IsGapFor T.number things.now no) }
{
    things.binary_search_by_key(&no, |thing| thing.number())
}

/// The thing of that number; `None` exactly where there is none.
pub fn find<T: Numbered>(things: &[T], no: u32) -> Option<&T>
    requires { RiseFrom T.number 1 things.now }
    ensures { option_copied result ≡ by_number T.number no things.now }
{
    match place_of(things, no) {
        Ok(place) => Some(&things[place]),
        Err(_) => None,
    }
}

/// The least number from 1 on that none of the things has.
pub fn free_number<T: Numbered>(things: &[T]) -> u32
    requires { length things.now < 2 ^ 31 }
    ensures { result ≡ free_from T.number 1 things.now }
{
    let mut free = 1;
    for thing in things {
        if thing.number() != free {
            return free;
        }
        free += 1;
    }
    free
}

/// Puts the thing in the place of the one of its number, or else between the smaller and the greater numbers, and says whether none
/// had its number. It takes no memory.
pub fn put_in<T: Numbered + Drop>(things: &mut Vec<T>, thing: T) -> bool
    requires rising { RiseFrom T.number 1 things.old.items }
    requires room { by_number T.number (T.number thing) things.old.items ≡ None →
        vec_len things.old < vec_capacity things.old }
    ensures items { things.new.items ≡ put_by_number T.number thing things.old.items }
    ensures capacity { vec_capacity things.new ≡ vec_capacity things.old }
    ensures new { MatchBool result
        (by_number T.number (T.number thing) things.old.items ≡ None)
        (by_number T.number (T.number thing) things.old.items ≢ None) }
{
    match place_of(things, thing.number()) {
        Ok(place) => {
            things[place] = thing;
            false
        }
        Err(place) => {
            insert_at(things, place, thing);
            true
        }
    }
}

fn insert_at<T: Drop>(things: &mut Vec<T>, place: usize, thing: T)
    requires place { place ≤ vec_len things.old }
    requires room { vec_len things.old < vec_capacity things.old }
    ensures items { things.new.items ≡ insert things.old.items place thing }
    ensures capacity { vec_capacity things.new ≡ vec_capacity things.old }
{
    things.insert(place, thing).unwrap();
}

/// Takes the thing of that number out.
pub fn take_out<T: Numbered + Drop>(things: &mut Vec<T>, no: u32)
    requires rising { RiseFrom T.number 1 things.old.items }
    requires there { by_number T.number no things.old.items ≢ None }
    ensures items { things.new.items ≡ without_number T.number no things.old.items }
    ensures capacity { vec_capacity things.new ≡ vec_capacity things.old }
{
    if let Ok(place) = place_of(things, no) {
        let _thing = things.remove(place);
    }
}
