//! Calls and what they are answered, as the tracker sees them: what a line or a request asks for, and what a reply tells.
#![tactic(auto)]

mod call;
mod call_copy;
mod cause;
mod cause_copy;
mod copied;
mod described;
mod described_copy;
mod given;
mod listed;
mod reply;
mod reply_copy;
mod told_text;
mod user_name;

pub use call::{
    Call, MOST_ENTRIES, MOST_FIELDS, MOST_FROM, MOST_LISTED, MOST_MEMBERS, MOST_SHOWN, Part,
};
pub use cause::{BalanceKept, Cause, Limit, Thing};
pub use described::{
    DescribedParts, Description, ToldField, ToldFields, ToldGroup, ToldGroups, ToldKind,
    ToldPermissions, ToldProject, ToldProjects, ToldStatus, ToldStatuses, ToldTransition,
    ToldTransitions,
};
pub use given::{Given, GivenField, GivenFields, has_twins};
pub use listed::{
    ListedIssue, ListedIssues, ToldBoard, ToldBoards, ToldFilter, ToldFilters, ToldSprint,
    ToldSprints,
};
pub use reply::{
    Answer, BalanceState, BurnedRow, BurnedRows, Column, Columns, RankedKey, RankedKeys, Refusal,
    Reply, Shown, ShownField, ShownFields, SprintPhase, ToldEntries, ToldEntry,
};
pub use told_text::ToldText;
pub use user_name::UserName;
