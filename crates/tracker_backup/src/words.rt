// The words of the two commands.
ghost use Rattle.std.specs.Prelude.{◌≡◌, ◌∷◌, [], map, string_bytes, MatchOption};
ghost use Rattle.tracker_backup.specs.declared.words.Word.{Word};
ghost use Rattle.tracker_backup.specs.Asking.{Asks};

/// What the words ask for.
#[derive(Clone, Copy, PartialEq, Eq)]
pub(crate) enum Word {
    Dump,
    Restore,
}

/// The command that the words ask for; `None` exactly where they are neither's.
#[tactic(auto, using(crate::proofs::Alone::one_word, crate::proofs::Alone::asks_one))]
pub(crate) fn word_in(words: &[String]) -> Option<Word>
    ensures { MatchOption result
        ((word : Word) → ¬ Asks word (map string_bytes words.now))
        (λ word. Asks word (map string_bytes words.now)) }
{
    if words.len() != 1 {
        return None;
    }
    word_of(words[0].as_str())
}

fn word_of(word: &str) -> Option<Word>
    ensures { MatchOption result
        ((asked : Word) → ¬ Asks asked (word.now ∷ []))
        (λ asked. Asks asked (word.now ∷ [])) }
{
    match word {
        "dump" => Some(Word::Dump),
        "restore" => Some(Word::Restore),
        _ => None,
    }
}
