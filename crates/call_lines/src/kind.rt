// Calls by name, and the members that each may have.
ghost use Rattle.std.specs.Prelude.{◌≡◌, map};
ghost use Rattle.call_lines.specs.Asked.{kind_named, call_members};

use short_texts::is_same;

/// A call by its name.
#[derive(Clone, Copy, PartialEq, Eq)]
pub enum CallKind {
    Create,
    Edit,
    Transition,
    Tick,
    MoveBefore,
    MoveAfter,
    RebalanceStart,
    RebalanceStep,
    SaveFilter,
    DropFilter,
    MakeBoard,
    DropBoard,
    MakeSprint,
    StartSprint,
    CloseSprint,
    SetGroup,
    Show,
    History,
    Search,
    Ranks,
    Balance,
    Filter,
    Board,
    Burndown,
    List,
    Filters,
    Boards,
    Sprints,
    Describe,
}

/// The call of that name. The names that most lines have come first.
#[tactic(auto, using(crate::proofs::Names::kind_of_same))]
pub fn kind_named(name: &str) -> Option<CallKind>
    ensures { result ≡ kind_named name.now }
{
    if is_same(name, "create") {
        Some(CallKind::Create)
    } else if is_same(name, "edit") {
        Some(CallKind::Edit)
    } else if is_same(name, "show") {
        Some(CallKind::Show)
    } else if is_same(name, "search") {
        Some(CallKind::Search)
    } else if is_same(name, "transition") {
        Some(CallKind::Transition)
    } else if is_same(name, "tick") {
        Some(CallKind::Tick)
    } else if is_same(name, "move_before") {
        Some(CallKind::MoveBefore)
    } else if is_same(name, "move_after") {
        Some(CallKind::MoveAfter)
    } else if is_same(name, "rebalance_start") {
        Some(CallKind::RebalanceStart)
    } else if is_same(name, "rebalance_step") {
        Some(CallKind::RebalanceStep)
    } else if is_same(name, "save_filter") {
        Some(CallKind::SaveFilter)
    } else if is_same(name, "drop_filter") {
        Some(CallKind::DropFilter)
    } else if is_same(name, "make_board") {
        Some(CallKind::MakeBoard)
    } else if is_same(name, "drop_board") {
        Some(CallKind::DropBoard)
    } else if is_same(name, "make_sprint") {
        Some(CallKind::MakeSprint)
    } else if is_same(name, "start_sprint") {
        Some(CallKind::StartSprint)
    } else if is_same(name, "close_sprint") {
        Some(CallKind::CloseSprint)
    } else if is_same(name, "set_group") {
        Some(CallKind::SetGroup)
    } else if is_same(name, "history") {
        Some(CallKind::History)
    } else if is_same(name, "ranks") {
        Some(CallKind::Ranks)
    } else if is_same(name, "balance") {
        Some(CallKind::Balance)
    } else if is_same(name, "filter") {
        Some(CallKind::Filter)
    } else if is_same(name, "board") {
        Some(CallKind::Board)
    } else if is_same(name, "burndown") {
        Some(CallKind::Burndown)
    } else if is_same(name, "list") {
        Some(CallKind::List)
    } else if is_same(name, "filters") {
        Some(CallKind::Filters)
    } else if is_same(name, "boards") {
        Some(CallKind::Boards)
    } else if is_same(name, "sprints") {
        Some(CallKind::Sprints)
    } else if is_same(name, "describe") {
        Some(CallKind::Describe)
    } else {
        None
    }
}

/// The names of the members that a call may have, in byte order.
pub fn call_members(kind: CallKind) -> &'static [&'static str]
    ensures { map (λ name. name.now) result.now ≡ call_members kind }
{
    match kind {
        CallKind::Create => &[
            "call", "external", "project", "set", "summary", "type", "user",
        ],
        CallKind::Edit => &["call", "issue", "set", "user"],
        CallKind::Transition => &["call", "issue", "set", "transition", "user"],
        CallKind::Tick => &["call", "to", "user"],
        CallKind::MoveBefore => &["call", "issue", "other", "user"],
        CallKind::MoveAfter => &["call", "issue", "other", "user"],
        CallKind::RebalanceStart => &["call", "user"],
        CallKind::RebalanceStep => &["call", "count", "user"],
        CallKind::SaveFilter => &["call", "jql", "name", "user"],
        CallKind::DropFilter => &["call", "filter", "user"],
        CallKind::MakeBoard => &["call", "filter", "name", "user"],
        CallKind::DropBoard => &["board", "call", "user"],
        CallKind::MakeSprint => &["call", "name", "user"],
        CallKind::StartSprint => &["call", "sprint", "user"],
        CallKind::CloseSprint => &["call", "sprint", "user"],
        CallKind::SetGroup => &["call", "group", "members", "user"],
        CallKind::Show => &["call", "issue", "user"],
        CallKind::History => &["call", "count", "from", "issue", "user"],
        CallKind::Search => &["call", "count", "from", "jql", "user"],
        CallKind::Ranks => &["call", "count", "from", "user"],
        CallKind::Balance => &["call", "user"],
        CallKind::Filter => &["call", "count", "filter", "from", "user"],
        CallKind::Board => &["board", "call", "count", "from", "user"],
        CallKind::Burndown => &["call", "count", "from", "sprint", "user"],
        CallKind::List => &["call", "count", "fields", "from", "jql", "user"],
        CallKind::Filters => &["call", "count", "from", "user"],
        CallKind::Boards => &["call", "count", "from", "user"],
        CallKind::Sprints => &["call", "count", "from", "user"],
        CallKind::Describe => &["call", "user"],
    }
}
