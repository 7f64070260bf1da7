// The part of a list that a call asks for.
ghost use Rattle.std.specs.Prelude.{◌≡◌, take, drop};
ghost use Rattle.tracker_calls.specs.Part.{part_of};

use tracker_calls::Part;

/// At most so many as the part has, behind the first that it passes over.
pub fn part_of<T>(all: &[T], part: Part) -> &[T]
    ensures { result.now ≡ part_of part all.now }
{
    front(behind(all, part.from as usize), part.count as usize)
}

fn behind<T>(all: &[T], from: usize) -> &[T]
    ensures { result.now ≡ drop from all.now }
{
    if all.len() <= from {
        return &[];
    }
    let (_, rest) = all.split_at(from);
    rest
}

fn front<T>(all: &[T], count: usize) -> &[T]
    ensures { result.now ≡ take count all.now }
{
    if all.len() <= count {
        return all;
    }
    let (first, _) = all.split_at(count);
    first
}
