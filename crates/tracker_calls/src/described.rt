// What the setup and the present say to a caller.
ghost use Rattle.std.specs.Prelude.{◌≡◌, IfOk};

use crate::told_text::ToldText;
use field_values::{Category, FieldNo, Memory, Moment, Names, Permission, Sequence, Weekday};
use std::alloc::Global;
use std::marker::Model;

/// What the setup and the present say to a caller. It lies apart, so that other answers stay short; contracts see its parts.
#[derive(Drop)]
pub struct Description {
    parts: Box<DescribedParts>,
}

impl Model for Description {
    ghost use Rattle.tracker_calls.specs.declared.described.DescribedParts.{DescribedParts as Parts};

    ghost Value = { Parts };

    ghost view = { λ d. d.parts.value };
}

impl Description {
    /// The description of these parts.
    pub fn of(alloc: Global, parts: DescribedParts) -> Result<Self, Memory>
        ensures { IfOk result (λ d. d ≡ parts) }
    {
        let parts = Box::new(alloc, parts)?;
        Ok(Description { parts })
    }

    /// Its parts, lent.
    pub fn parts(&self) -> &DescribedParts
        ensures { result.now ≡ self.now }
    {
        &self.parts
    }
}

/// Names have the letters of the place of the setup that declares them, and stand in its order.
#[derive(Drop)]
pub struct DescribedParts {
    /// Whether the caller may administer the tracker.
    pub administer: bool,
    /// By number.
    pub fields: ToldFields,
    /// The status of a new issue.
    pub first_status: ToldText,
    pub groups: ToldGroups,
    /// The present one.
    pub moment: Moment,
    /// How far local time is ahead of UTC at that moment.
    pub offset_minutes: i32,
    /// Whether the caller may plan sprints.
    pub plan: bool,
    /// Those that the caller may browse.
    pub projects: ToldProjects,
    /// The user by whom ranks are balanced.
    pub rebalancer: ToldText,
    pub statuses: ToldStatuses,
    pub transitions: ToldTransitions,
    /// The caller.
    pub user: ToldText,
    pub users: Names,
    pub week_starts: Weekday,
}

/// What a field holds.
#[derive(Clone, Copy, PartialEq, Eq)]
pub enum ToldKind {
    Choice,
    Date,
    Labels,
    Number,
    Set,
    Sprint,
    Text,
    User,
}

/// A field.
#[derive(Drop)]
pub struct ToldField {
    pub kind: ToldKind,
    pub name: ToldText,
    pub number: FieldNo,
    /// Of a choice and of a set the names that a value may have.
    pub options: Option<Names>,
}

/// The fields that an answer tells.
pub type ToldFields = Sequence<ToldField>;

/// A group, with its members as they are now.
#[derive(Drop)]
pub struct ToldGroup {
    pub group: ToldText,
    pub members: Names,
}

/// The groups that an answer tells.
pub type ToldGroups = Sequence<ToldGroup>;

/// A project, and what the caller may do in it.
#[derive(Drop)]
pub struct ToldProject {
    pub key: ToldText,
    pub lead: ToldText,
    /// Permissions of a project, in the order in which these are declared.
    pub may: ToldPermissions,
}

/// The projects that an answer tells.
pub type ToldProjects = Sequence<ToldProject>;

/// The permissions that an answer tells.
pub type ToldPermissions = Sequence<Permission>;

/// A status.
#[derive(Drop)]
pub struct ToldStatus {
    pub category: Category,
    pub status: ToldText,
}

/// The statuses that an answer tells.
pub type ToldStatuses = Sequence<ToldStatus>;

/// A transition, with its rules in their texts.
#[derive(Drop)]
pub struct ToldTransition {
    pub conditions: Names,
    /// Statuses.
    pub from: Names,
    pub post: Names,
    /// A status.
    pub to: ToldText,
    pub transition: ToldText,
    pub validators: Names,
}

/// The transitions that an answer tells.
pub type ToldTransitions = Sequence<ToldTransition>;
