//! What is proved of all texts and values. These functions do nothing: each clause is a law.
ghost use Rattle.field_forms.specs.SoundRules.{ConditionsAreSound, ValidatorsAreSound};
ghost use Rattle.field_forms.specs.SoundRules.{PostFunctionsAreSound};
ghost use Rattle.field_forms.specs.ReadBack.{SetsAreReadBack, LabelsAreReadBack};
ghost use Rattle.field_forms.specs.ReadBack.{ListedValuesAreReadBack};

/// A rule that a text states names groups and fields that are there, and sets a field only to a value that fits it.
pub fn rules_are_sound()
    ensures conditions { ConditionsAreSound }
    ensures validators { ValidatorsAreSound }
    ensures posts { PostFunctionsAreSound }
{}

/// A set that fits is read back from the list of its choices' names, and labels that fit from the list of them.
pub fn lists_are_read_back()
    ensures sets { SetsAreReadBack }
    ensures labels { LabelsAreReadBack }
    ensures values { ListedValuesAreReadBack }
{}
