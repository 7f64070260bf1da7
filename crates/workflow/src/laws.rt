//! What is proved of all changes and of all plans. These functions do nothing: each clause is a law.
ghost use Rattle.workflow.specs.Laws.{NetIsTheDifference, DifferencesAreOne, DifferencesMayBeAdded, DifferencesAreMade, RefusedInputIsTheFirst, EditsFit, PlansFit};

/// What changes come to is the difference that they make: each field that then holds another value, once and by rising number.
pub fn net_is_the_difference()
    ensures difference { NetIsTheDifference }
    ensures one { DifferencesAreOne }
{}

/// A difference that isn't empty is a change group that a history may add, and with it the fields hold what they are
/// to hold.
pub fn differences_as_change_groups()
    ensures added { DifferencesMayBeAdded }
    ensures made { DifferencesAreMade }
{}

/// The input that is told is, of those that are refused, the one of the least field number.
pub fn refused_input_is_the_first()
    ensures { RefusedInputIsTheFirst }
{}

/// After an edit that isn't refused the status is as before, and values fit.
pub fn edits_fit()
    ensures { EditsFit }
{}

/// After a planned transition of a setup the issue has the status that the transition leads to, and values fit.
pub fn plans_fit()
    ensures { PlansFit }
{}
