ghost use Rattle.std.specs.Prelude.{◌≡◌, ◌+◌};
ghost use Rattle.tracker_limits.specs.Limits.{entries_reserve, most_boards, most_changes, most_entries, most_filters};
ghost use Rattle.tracker_limits.specs.Limits.{most_issues, most_sprints, most_text_bytes, text_reserve};

/// How many issues there are at most.
pub const MOST_ISSUES: usize = 50_000;

/// How many entries the histories of all issues have at most.
pub const MOST_ENTRIES: usize = 2_000_000;

/// So many entries one change may bring: one for each field that an issue can have. A call begins only where there is room for them.
pub const ENTRIES_RESERVE: usize = 43;

/// How many bytes of text all issues have at most, in opening values and entries.
pub const MOST_TEXT_BYTES: u64 = 500_000_000;

/// No call adds more bytes of text. It begins only where there is room for them.
pub const TEXT_RESERVE: u64 = 200_000;

/// How many filters are kept at most.
pub const MOST_FILTERS: usize = 200;

/// How many boards are kept at most.
pub const MOST_BOARDS: usize = 200;

/// How many sprints there are at most.
pub const MOST_SPRINTS: u32 = 1_000;

/// Each limit is the number that its definition says.
pub fn limits_are_told()
    // What histories may have, and how many entries one change may bring. Each change group makes
    // an issue or has an entry of its own, so that there are no more groups than both together.
    ensures issues { MOST_ISSUES ≡ most_issues }
    ensures entries { MOST_ENTRIES ≡ most_entries }
    ensures entries_reserve { ENTRIES_RESERVE ≡ entries_reserve }
    ensures changes { MOST_ISSUES + MOST_ENTRIES ≡ most_changes }
    // What text they may have, and how much of it a call may bring.
    ensures text_bytes { MOST_TEXT_BYTES ≡ most_text_bytes }
    ensures text_reserve { TEXT_RESERVE ≡ text_reserve }
    // What stands beside the issues.
    ensures filters { MOST_FILTERS ≡ most_filters }
    ensures boards { MOST_BOARDS ≡ most_boards }
    ensures sprints { MOST_SPRINTS ≡ most_sprints }
{}
