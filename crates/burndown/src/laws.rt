//! What is proved of every burndown. These functions do nothing: each clause is a law.
ghost use Rattle.burndown.specs.Laws.{CoursesAreSums, RoomChangesNothing};
ghost use Rattle.burndown.specs.ChartLaws.{ChartsAreOfHistories, FutureHasNoRows, ToldInOrder, NothingTold, NumbersPass, NextMayBeTold, CreationMayBeTold, AdditionMayBeTold, StartMayBegin, CloseMayEnd, RoomStaysApart, TotalsFit};

/// After any list of change groups, begins and ends, what remains of a sprint is the sum over the issues of what each counts
/// for, as it was last told, and the sprint's rows are the groups that changed that sum.
pub fn courses_are_sums()
    ensures sums { CoursesAreSums }
    ensures room { RoomChangesNothing }
{}

/// Whatever list of change groups, begins and ends was told in order, totals, starts and rows are those that whole histories give by
/// the numbers of groups.
pub fn charts_are_of_histories()
    ensures charts { ChartsAreOfHistories }
    ensures future { FutureHasNoRows }
    ensures told { ToldInOrder }
{}

/// The same a step at a time, as histories grow or as kept ones are told: from nothing on, group by group, start by start and close by close.
pub fn steps_of_histories()
    // Before any group it is that of the histories, and it stays so over numbers that no group has.
    ensures nothing { NothingTold }
    ensures numbers { NumbersPass }
    // A group may be told where all before it were: the next one of kept histories, a new issue, or
    // a change of an issue.
    ensures next { NextMayBeTold }
    ensures creation { CreationMayBeTold }
    ensures addition { AdditionMayBeTold }
    // So may the begin and the end of a sprint, where all groups before it were.
    ensures start { StartMayBegin }
    ensures close { CloseMayEnd }
    // Room that is made changes nothing of this.
    ensures room { RoomStaysApart }
{}

/// As many issues as a tracker holds, of up to 10^12 thousandths of points, keep each total in range.
pub fn totals_fit()
    ensures { TotalsFit }
{}
