// The parts of answers that list issues with their fields, filters, boards and sprints.
ghost use Rattle.std.specs.Prelude.{◌≡◌, IfOk};

use crate::copied::Copied;
use crate::reply::{ShownFields, SprintPhase};
use crate::told_text::ToldText;
use field_values::{BoardNo, FilterNo, Memory, Moment, Sequence, SprintNo, Text};
use std::alloc::Global;

/// An issue with those of the fields asked for that aren't empty, and the moments of its creation and of its last change.
#[derive(Drop)]
pub struct ListedIssue {
    pub created: Moment,
    pub fields: ShownFields,
    /// Its key.
    pub issue: ToldText,
    pub updated: Moment,
}

/// The issues that an answer tells with their fields.
pub type ListedIssues = Sequence<ListedIssue>;

/// A saved filter, with its text as it was given.
#[derive(Drop)]
pub struct ToldFilter {
    pub filter: FilterNo,
    pub jql: Text,
    pub name: Text,
    pub owner: ToldText,
}

/// The filters that an answer tells.
pub type ToldFilters = Sequence<ToldFilter>;

/// A board, and the filter whose issues it shows.
#[derive(Drop)]
pub struct ToldBoard {
    pub board: BoardNo,
    pub filter: FilterNo,
    pub name: Text,
}

/// The boards that an answer tells.
pub type ToldBoards = Sequence<ToldBoard>;

/// A sprint, and how far it is.
#[derive(Drop)]
pub struct ToldSprint {
    pub name: Text,
    pub sprint: SprintNo,
    pub state: SprintPhase,
}

/// The sprints that an answer tells.
pub type ToldSprints = Sequence<ToldSprint>;

impl Copied for ListedIssue {
    fn copy(&self, alloc: Global) -> Result<Self, Memory> {
        let fields = self.fields.copy(alloc)?;
        let issue = self.issue.copy(alloc)?;
        Ok(ListedIssue {
            created: self.created,
            fields,
            issue,
            updated: self.updated,
        })
    }
}

impl Copied for ToldFilter {
    fn copy(&self, alloc: Global) -> Result<Self, Memory> {
        let jql = self.jql.copy(alloc)?;
        let name = self.name.copy(alloc)?;
        let owner = self.owner.copy(alloc)?;
        Ok(ToldFilter {
            filter: self.filter,
            jql,
            name,
            owner,
        })
    }
}

impl Copied for ToldBoard {
    fn copy(&self, alloc: Global) -> Result<Self, Memory> {
        let name = self.name.copy(alloc)?;
        Ok(ToldBoard {
            board: self.board,
            filter: self.filter,
            name,
        })
    }
}

impl Copied for ToldSprint {
    fn copy(&self, alloc: Global) -> Result<Self, Memory> {
        let name = self.name.copy(alloc)?;
        Ok(ToldSprint {
            name,
            sprint: self.sprint,
            state: self.state,
        })
    }
}
