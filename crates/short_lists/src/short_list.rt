ghost use Rattle.std.specs.Prelude.{◌≡◌, ◌<◌, ◌≤◌, ◌∷◌, ◌++◌, [], length, true, false, IsOk, IfOk, OnOk, OnErr, slice_set, insert};
ghost use Rattle.short_lists.specs.ShortList.{kept_items, HasRoom, IsSomewhere, AreApartIfMany};

use crate::places::Places;
use field_values::Memory;
use std::alloc::Global;
use std::marker::Model;

/// A list of which at most `N` things lie in the list itself, so that it takes no memory for them; once it has more, all lie apart.
/// Contracts see it as its things.
#[derive(Drop)]
pub struct ShortList<T: Copy, const N: usize> {
    alloc: Global,
    kept: Kept<T, N>,
}

/// Where the things of a list are.
pub(crate) enum Kept<T: Copy, const N: usize> {
    Nowhere,
    Here(Places<T, N>),
    Apart(Vec<T>),
}

// Written by hand, so that whoever lets one go makes one call, and its proof takes one step there.
impl<T: Copy, const N: usize> Drop for Kept<T, N> {
    fn drop(self) {
        match self {
            Kept::Nowhere | Kept::Here(_) | Kept::Apart(_) => {}
        }
    }
}

impl<T: Copy, const N: usize> Model for ShortList<T, N> {
    ghost use Rattle.std.specs.Prelude.{List};
    ghost use Rattle.std.specs.Coded.{coded_list};

    ghost Value = { List T };

    ghost coded = { coded_list T.code };

    ghost use Rattle.short_lists.specs.ShortList.{kept_items, AreApartIfMany};

    ghost view = { λ l. kept_items l.kept };

    ghost invariant = { λ l. AreApartIfMany N l.kept };
}

impl<T: Copy, const N: usize> ShortList<T, N> {
    /// The empty list.
    pub fn new(alloc: Global) -> Self
        ensures { result ≡ [] }
    {
        ShortList {
            alloc,
            kept: Kept::Nowhere,
        }
    }

    /// The things in order, lent.
    pub fn as_slice(&self) -> &[T]
        ensures { result.now ≡ self.now }
    {
        self.kept.as_slice()
    }

    /// Puts one more at the end, or leaves the list as it is. That fails only where as many are there as may lie in the list itself.
    pub fn push(&mut self, item: T) -> Result<(), Memory>
        ensures ok { OnOk result (self.new ≡ self.old ++ item ∷ []) }
        ensures few { length self.old < N → IsOk result }
        ensures err { OnErr result (self.new ≡ self.old) }
    {
        let alloc = self.alloc;
        self.kept.push(alloc, item)
    }

    /// Puts one more at a place, or leaves the list as it is. That fails only where as many are there as may lie in the list itself.
    pub fn insert(&mut self, place: usize, item: T) -> Result<(), Memory>
        requires { place ≤ length self.old }
        ensures ok { OnOk result (self.new ≡ insert self.old place item) }
        ensures few { length self.old < N → IsOk result }
        ensures err { OnErr result (self.new ≡ self.old) }
    {
        let alloc = self.alloc;
        self.kept.insert(alloc, place, item)
    }

    /// Puts one in the place of another.
    pub fn set(&mut self, place: usize, item: T)
        requires { place < length self.old }
        ensures { self.new ≡ slice_set self.old place item }
    {
        self.kept.set(place, item);
    }
}

impl<T: Copy, const N: usize> Kept<T, N> {
    fn as_slice(&self) -> &[T]
        ensures { result.now ≡ kept_items self.now }
    {
        match self {
            Kept::Nowhere => &[],
            Kept::Here(list) => list.as_slice(),
            Kept::Apart(list) => list.as_slice(),
        }
    }

    fn push(&mut self, alloc: Global, item: T) -> Result<(), Memory>
        requires { AreApartIfMany N self.old }
        ensures ok { OnOk result (kept_items self.new ≡ kept_items self.old ++ item ∷ []) }
        ensures few { length (kept_items self.old) < N → IsOk result }
        ensures apart { AreApartIfMany N self.new }
        ensures err { OnErr result (kept_items self.new ≡ kept_items self.old) }
    {
        self.make_room(alloc, item)?;
        match self {
            Kept::Nowhere => unreachable!(),
            Kept::Here(list) => {
                list.push(item);
                Ok(())
            }
            Kept::Apart(list) => {
                list.push(item)?;
                Ok(())
            }
        }
    }

    fn insert(&mut self, alloc: Global, place: usize, item: T) -> Result<(), Memory>
        // The place is in the list or at its end, and items are apart only if they are many.
        requires place { place ≤ length (kept_items self.old) }
        requires apart { AreApartIfMany N self.old }
        // The item stands there then. As long as there are few it never fails, since they take no
        // memory.
        ensures ok { OnOk result (kept_items self.new ≡ insert (kept_items self.old) place item) }
        ensures few { length (kept_items self.old) < N → IsOk result }
        // Items stay apart only if they are many, and where memory is wanting the list is as it
        // was.
        ensures apart { AreApartIfMany N self.new }
        ensures err { OnErr result (kept_items self.new ≡ kept_items self.old) }
    {
        self.make_room(alloc, item)?;
        match self {
            Kept::Nowhere => unreachable!(),
            Kept::Here(list) => {
                list.insert(place, item);
                Ok(())
            }
            Kept::Apart(list) => {
                list.insert(place, item)?;
                Ok(())
            }
        }
    }

    fn set(&mut self, place: usize, item: T)
        requires place { place < length (kept_items self.old) }
        requires apart { AreApartIfMany N self.old }
        ensures things { kept_items self.new ≡ slice_set (kept_items self.old) place item }
        ensures apart { AreApartIfMany N self.new }
    {
        match self {
            Kept::Nowhere => {}
            Kept::Here(list) => list.set(place, item),
            Kept::Apart(list) => list[place] = item,
        }
    }

    // Leaves the things as they are, with room for one more. Places come with the first thing, which stands in the unused ones too.
    fn make_room(&mut self, alloc: Global, item: T) -> Result<(), Memory>
        requires { AreApartIfMany N self.old }
        ensures same { kept_items self.new ≡ kept_items self.old }
        ensures few { length (kept_items self.old) < N → IsOk result }
        ensures apart { AreApartIfMany N self.new }
        ensures room { OnOk result (HasRoom N self.new) }
    {
        if self.is_nowhere() {
            self.begin(item);
        }
        if self.is_full() {
            return self.move_apart(alloc);
        }
        Ok(())
    }

    // Gives a list that is nowhere its places. A call of its own, so that they are cleared when the first thing comes, and not with
    // each.
    #[inline(never)]
    fn begin(&mut self, item: T)
        ensures none { kept_items self.new ≡ [] }
        ensures some { IsSomewhere self.new }
        ensures apart { AreApartIfMany N self.new }
    {
        *self = Kept::Here(Places::of(item));
    }

    // Moves the things of a list that is full apart.
    #[inline(never)]
    fn move_apart(&mut self, alloc: Global) -> Result<(), Memory>
        requires many { N ≤ length (kept_items self.old) }
        requires apart { AreApartIfMany N self.old }
        ensures same { kept_items self.new ≡ kept_items self.old }
        ensures apart { AreApartIfMany N self.new }
        ensures room { OnOk result (HasRoom N self.new) }
    {
        let apart = apart(alloc, self.as_slice())?;
        *self = Kept::Apart(apart);
        Ok(())
    }

    fn is_nowhere(&self) -> bool
        ensures none { result ≡ true → kept_items self.now ≡ [] }
        ensures some { result ≡ false → IsSomewhere self.now }
    {
        matches!(self, Kept::Nowhere)
    }

    fn is_full(&self) -> bool
        ensures full { result ≡ true → N ≤ length (kept_items self.now) }
        ensures room { result ≡ false → IsSomewhere self.now → HasRoom N self.now }
    {
        match self {
            Kept::Nowhere | Kept::Apart(_) => false,
            Kept::Here(list) => list.is_full(),
        }
    }
}

// The same things apart, with room for as many more.
fn apart<T: Copy>(alloc: Global, items: &[T]) -> Result<Vec<T>, Memory>
    ensures { IfOk result (λ list. list.items ≡ items.now) }
{
    let mut list = Vec::with_capacity(alloc, items.len().saturating_mul(2))?;
    for item in items {
        list.push(*item)?;
    }
    Ok(list)
}
