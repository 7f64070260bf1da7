//! What is proved of all zones. This function does nothing: each clause is a law.

ghost use Rattle.relative_dates.specs.Laws.{FirstMomentIsFirst, FirstMomentIsOne, FirstMomentsAreInOrder, LiteralIsFirst};

/// The first moment at which the local clock has come to a second is the least one at which it shows that second or a later
/// one; midnights and dates with a time are such moments.
pub fn first_moments()
    ensures first { FirstMomentIsFirst }
    ensures one { FirstMomentIsOne }
    ensures order { FirstMomentsAreInOrder }
    ensures literal { LiteralIsFirst }
{}
