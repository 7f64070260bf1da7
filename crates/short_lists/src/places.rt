ghost use Rattle.std.specs.Prelude.{◌≡◌, ◌+◌, ◌<◌, ◌≤◌, ◌==◌, List, ◌∷◌, ◌++◌, [], length, take, slice_set, insert};

use std::marker::Model;

/// Places of which the first hold things. Contracts see these things.
#[derive(Drop)]
pub(crate) struct Places<T: Copy, const N: usize> {
    places: [T; N],
    filled: usize,
}

impl<T: Copy, const N: usize> Model for Places<T, N> {
    ghost use Rattle.std.specs.Prelude.{List, ◌≡◌, ◌≤◌, length, take};
    ghost use Rattle.std.specs.Coded.{coded_list};

    ghost Value = { List T };

    ghost coded = { coded_list T.code };

    ghost view = { λ p. take p.filled p.places };

    ghost invariant = { λ p. (p.filled ≤ N) × (length p.places ≡ N) };
}

impl<T: Copy, const N: usize> Places<T, N> {
    // None is filled, though a copy of this thing lies in each.
    pub(crate) fn of(item: T) -> Self
        ensures { result ≡ [] }
    {
        Places {
            places: [item; N],
            filled: 0,
        }
    }

    pub(crate) fn as_slice(&self) -> &[T]
        ensures value { result.now ≡ self.now }
        ensures fits { length self.now ≤ N }
    {
        &self.places[..self.filled]
    }

    pub(crate) fn is_full(&self) -> bool
        ensures value { result ≡ (length self.now == N) }
        ensures fits { length self.now ≤ N }
    {
        self.filled == N
    }

    pub(crate) fn push(&mut self, item: T)
        requires { length self.old < N }
        ensures { self.new ≡ self.old ++ item ∷ [] }
    {
        let filled = self.filled;
        self.places[filled] = item;
        self.filled = filled + 1;
    }

    pub(crate) fn insert(&mut self, at: usize, item: T)
        requires place { at ≤ length self.old }
        requires room { length self.old < N }
        ensures { self.new ≡ insert self.old at item }
    {
        let filled = self.filled;
        put_between(&mut self.places, filled, at, item);
        self.filled = filled + 1;
    }

    pub(crate) fn set(&mut self, at: usize, item: T)
        requires { at < length self.old }
        ensures { self.new ≡ slice_set self.old at item }
    {
        let filled = self.filled;
        put_at(&mut self.places[..filled], at, item);
    }
}

fn put_at<T: Copy>(items: &mut [T], at: usize, item: T)
    requires { at < length items.old }
    ensures { items.new ≡ slice_set items.old at item }
{
    items[at] = item;
}

// Puts a thing among the first, of which so many are filled, and moves those behind it up.
fn put_between<T: Copy>(places: &mut [T], filled: usize, at: usize, item: T)
    requires place { at ≤ filled }
    requires room { filled < length places.old }
    ensures things { take (filled + 1) places.new ≡ insert (take filled places.old) at item }
    ensures places { length places.new ≡ length places.old }
{
    places.copy_within(at..filled, at + 1);
    places[at] = item;
}
