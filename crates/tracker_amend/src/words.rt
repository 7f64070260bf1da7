// The word of the command.
ghost use Rattle.std.specs.Prelude.{◌∷◌, [], map, string_bytes};
ghost use Rattle.std.specs.Bool.{MatchBool};
ghost use Rattle.tracker_amend.specs.Amend.{IsAmend};

/// Whether the words are those of the command.
#[tactic(auto, using(crate::proofs::Alone::one_word, crate::proofs::Alone::amends_one))]
pub fn is_amend(words: &[String]) -> bool
    ensures { MatchBool result
        (IsAmend (map string_bytes words.now)) (¬ IsAmend (map string_bytes words.now)) }
{
    if words.len() != 1 {
        return false;
    }
    is_its_word(words[0].as_str())
}

fn is_its_word(word: &str) -> bool
    ensures { MatchBool result (IsAmend (word.now ∷ [])) (¬ IsAmend (word.now ∷ [])) }
{
    match word {
        "amend" => true,
        _ => false,
    }
}
