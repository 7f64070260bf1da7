//! What is proved of bound queries. These functions do nothing: each clause is a law.
ghost use Rattle.jql_grammar.specs.First.{TellsTheFirst};
ghost use Rattle.jql_grammar.specs.Laws.{NotIsTheNegation, DeniesTwice, KeepsTests, BindsWithoutMembers};

/// NOT of a query is the negation of its condition, and NOT of NOT is its condition.
#[tactic(auto, using(crate::proofs::Denying::denies_twice))]
pub fn negations()
    ensures negation { NotIsTheNegation }
    ensures twice { DeniesTwice }
{}

/// No test is lost where NOT is carried inward, and none is added.
#[tactic(auto, using(crate::proofs::Counting::keeps_tests))]
pub fn tests_stay()
    ensures { KeepsTests }
{}

/// What a query is bound to doesn't go by who is in a group.
#[tactic(auto, using(crate::proofs::Members::binds_without_members))]
pub fn members_do_not_matter()
    ensures { BindsWithoutMembers }
{}

/// The fault of a condition is that of its first test that has one, from the left, whether or not NOT stands before it.
#[tactic(auto, using(crate::proofs::Firsts::tells_the_first))]
pub fn first_fault()
    ensures { TellsTheFirst }
{}
