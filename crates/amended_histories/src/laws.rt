//! What is proved of all trackers whose setup was amended. This function does nothing: its clause is a law.
ghost use Rattle.amended_histories.specs.Laws.{HistoriesTellTheSame};

/// Every issue's history tells the same, byte for byte: the replies to `history` and `show`, where they aren't refused.
pub fn histories_tell_the_same()
    ensures { HistoriesTellTheSame }
{}
