//! What is proved of lists. This function does nothing: each clause is a law.
ghost use Rattle.filter_lists.specs.Laws.{ListsAreShown, NothingIsListed};

/// What is listed is what the call `filter` shows, and nothing where there is no filter.
pub fn lists_are_shown()
    ensures shown { ListsAreShown }
    ensures none { NothingIsListed }
{}
