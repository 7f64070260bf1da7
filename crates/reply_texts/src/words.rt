// The words and numbers by which replies name things.
ghost use Rattle.std.specs.Prelude.{◌≡◌};
ghost use Rattle.reply_texts.specs.Reply.{permission_name, phase_name, thing_name, limit_name};
ghost use Rattle.reply_texts.specs.Reply.{limit_number};

use field_values::Permission;
use tracker_calls::{Limit, SprintPhase, Thing};
use tracker_limits::{
    MOST_BOARDS, MOST_ENTRIES, MOST_FILTERS, MOST_ISSUES, MOST_SPRINTS, MOST_TEXT_BYTES,
};

/// The word by which the setup and a refusal name a permission.
pub fn permission_name(permission: Permission) -> &'static str
    ensures { result.now ≡ permission_name permission }
{
    match permission {
        Permission::Browse => "browse",
        Permission::Create => "create",
        Permission::Edit => "edit",
        Permission::Transition => "transition",
        Permission::Rank => "rank",
        Permission::Plan => "plan",
        Permission::Administer => "administer",
    }
}

/// The word by which replies tell it.
pub fn phase_name(phase: SprintPhase) -> &'static str
    ensures { result.now ≡ phase_name phase }
{
    match phase {
        SprintPhase::Future => "future",
        SprintPhase::Active => "active",
        SprintPhase::Closed => "closed",
    }
}

/// The word by which a refusal names the kind.
pub fn thing_name(kind: Thing) -> &'static str
    ensures { result.now ≡ thing_name kind }
{
    match kind {
        Thing::User => "user",
        Thing::Project => "project",
        Thing::Issue => "issue",
        Thing::Transition => "transition",
        Thing::Sprint => "sprint",
        Thing::Field => "field",
        Thing::Filter => "filter",
        Thing::Board => "board",
        Thing::Group => "group",
    }
}

/// The word by which a refusal names the limit.
pub fn limit_name(limit: Limit) -> &'static str
    ensures { result.now ≡ limit_name limit }
{
    match limit {
        Limit::Issues => "issues",
        Limit::Entries => "entries",
        Limit::TextBytes => "text_bytes",
        Limit::Filters => "filters",
        Limit::Boards => "boards",
        Limit::Sprints => "sprints",
    }
}

/// How many are kept at most.
pub fn limit_number(limit: Limit) -> u64
    ensures { result ≡ limit_number limit }
{
    match limit {
        Limit::Issues => MOST_ISSUES as u64,
        Limit::Entries => MOST_ENTRIES as u64,
        Limit::TextBytes => MOST_TEXT_BYTES,
        Limit::Filters => MOST_FILTERS as u64,
        Limit::Boards => MOST_BOARDS as u64,
        Limit::Sprints => u64::from(MOST_SPRINTS),
    }
}
