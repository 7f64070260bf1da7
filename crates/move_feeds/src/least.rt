//! The lesser of two numbers.
ghost use Rattle.std.specs.Prelude.{◌≡◌, min};

pub(crate) fn least(one: usize, other: usize) -> usize
    ensures { result ≡ min one other }
{
    if one < other { one } else { other }
}
