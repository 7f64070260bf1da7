//! What is proved of all ranks. These functions do nothing: each clause is a law.
ghost use Rattle.rank_strings.specs.Laws.{OrderIsTotal, EqualRanksAreTheSame, RanksCompareAsTheirTexts, TextsAreOfOneRank, FrontIsNamed, ShortestDifferInTheLastDigit, OneRankIsChosen, ChosenIsComputed, NoOtherIsChosen, NoneWithoutRoom, StepsUp, StepsDown};

/// The order of ranks is total, and is that of their texts.
pub fn order_of_ranks()
    ensures total { OrderIsTotal }
    ensures equal { EqualRanksAreTheSame }
    ensures texts { RanksCompareAsTheirTexts }
{}

/// A text is the text of one rank at most.
pub fn texts_of_ranks()
    ensures { TextsAreOfOneRank }
{}

/// One rank at most is chosen, and where six digits alone don't serve, the candidates differ in one digit.
pub fn chosen_rank()
    ensures front { FrontIsNamed }
    ensures shortest { ShortestDifferInTheLastDigit }
    ensures one { OneRankIsChosen }
{}

/// The chosen rank is computed from its neighbours, and nothing is exactly where no rank lies between them.
pub fn computed_rank()
    ensures chosen { ChosenIsComputed }
    ensures alone { NoOtherIsChosen }
    ensures none { NoneWithoutRoom }
{}

/// Beside a lone neighbour the step is 8,192 wherever there is room for it.
pub fn step_beside_a_lone_neighbour()
    ensures up { StepsUp }
    ensures down { StepsDown }
{}
