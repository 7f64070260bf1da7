//! What is proved of the texts of rules. This function does nothing: each clause is a law.
#![tactic(auto)]

ghost use Rattle.rules_read_back.specs.ReadBack.{ConditionsAreReadBack, ValidatorsAreReadBack};
ghost use Rattle.rules_read_back.specs.ReadBack.{PostFunctionsAreReadBack};

/// A rule that a text states under the names of a sound setup is what its one text states too.
pub fn rules_are_read_back()
    ensures conditions { ConditionsAreReadBack }
    ensures validators { ValidatorsAreReadBack }
    ensures posts { PostFunctionsAreReadBack }
{}
