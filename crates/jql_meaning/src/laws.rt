//! What is proved of all queries. These functions do nothing: each clause is a law.
ghost use Rattle.jql_meaning.specs.Laws.{OnlyOwnSprintMatters, OnePhaseIsSet, OneSprintIsAdded, OtherIssuesStand};
ghost use Rattle.jql_meaning.specs.Laws.{NegationIsPlain, NotOfNotIsItself, NeverBothHold, WasIsOfSomeSpan};
ghost use Rattle.jql_meaning.specs.Laws.{PresentChangesAreCritical, PastChangesAreCritical, ChangesAreCritical, ChangesComeFromComparisons, CriticalByTheCalendar};

/// How far sprints are that the issue isn't in doesn't matter.
pub fn only_the_own_sprint_matters()
    ensures { OnlyOwnSprintMatters }
{}

/// Where a sprint comes to another phase, or one more sprint comes, surroundings differ in that sprint alone, which only issues that
/// are in it can tell.
pub fn one_sprint_differs()
    ensures set { OnePhaseIsSet }
    ensures added { OneSprintIsAdded }
    ensures others { OtherIssuesStand }
{}

/// The negation of a condition holds just where the condition doesn't, at every moment and wherever there is something to compare.
pub fn negations()
    ensures negation { NegationIsPlain }
    ensures twice { NotOfNotIsItself }
{}

/// A condition and NOT of it never hold together, not even over empty fields.
pub fn denials()
    ensures { NeverBothHold }
{}

/// WAS holds by some span and some moment of it.
pub fn past_of_some_span()
    ensures { WasIsOfSomeSpan }
{}

/// The truth of a comparison, and of a whole query, changes at critical moments alone, and that of a condition only where one of
/// its comparisons' does.
pub fn truth_changes_at_critical_moments()
    ensures present { PresentChangesAreCritical }
    ensures past { PastChangesAreCritical }
    ensures query { ChangesAreCritical }
    ensures condition { ChangesComeFromComparisons }
{}

/// Which moments are critical for an issue goes by the calendar alone, and not by sprints or groups.
pub fn critical_by_the_calendar()
    ensures { CriticalByTheCalendar }
{}
